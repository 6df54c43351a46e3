//! How the clauses of a Boolean are put together.
//!
//! That is told by a rule, and not by a weight, so it is proved once for all weights of clauses.

use qm_scorer::AnyCombiner;

/// How many Should clauses have to match at least, whether scores are wanted, and what becomes of those of the Should
/// clauses that match.
#[derive(Clone, Copy)]
pub(crate) struct BooleanRule {
    pub(crate) minimum_number_should_match: usize,
    pub(crate) scoring_enabled: bool,
    pub(crate) score_combiner: AnyCombiner,
}
