//! What a line asks of a query. A new question is a variant here, an arm where it is answered, and its lines in
//! `specs/Answers.antt`.

use qm_docset::Score;

/// What is asked of a query.
#[derive(Clone, Copy, Debug)]
pub enum Question {
    /// The documents that match.
    Documents,
    /// The documents that match, each with its score.
    Scores,
    /// How many match that weren't deleted.
    Count,
    /// Those that match and score more than all before them in their segment and than the threshold, each with its
    /// score.
    Above(Score),
    /// The best of those that match and weren't deleted, at most so many, each with its score: by score downwards, then
    /// by number upwards.
    Best(u32),
}
