//! A score that is at least 0.

ghost use Rattle.std.specs.Prelude.{◌≡◌, ◌≤ℤ◌, pos};

use qm_docset::Score;

/// A score that is at least 0: what a word weighs, the factor of a boost, a constant's score.
#[derive(Clone, Copy, Debug)]
pub struct NonNegativeScore {
    score: Score,
    ghost not_negative: { pos 0 ≤ℤ score },
}

impl NonNegativeScore {
    /// This score, which is at least 0.
    pub fn new(score: Score) -> NonNegativeScore
        requires { pos 0 ≤ℤ score }
        ensures { result.score ≡ score }
    {
        NonNegativeScore { score }
    }

    /// The score.
    pub fn score(self) -> Score
        ensures value { result ≡ self.score }
        ensures not_negative { pos 0 ≤ℤ result }
    {
        self.score
    }
}
