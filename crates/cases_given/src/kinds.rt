//! Which variant a scorer is.

use qm_combine::Scorer;
use qm_scorer::AnyScorer;

/// The word for the variant of a scorer.
pub fn kind_of_scorer<'a, S: Scorer>(scorer: &AnyScorer<'a, S>) -> &'static str {
    match scorer {
        AnyScorer::Empty(_) => "empty",
        AnyScorer::All(_) => "all",
        AnyScorer::Own(_) => "own",
        AnyScorer::Term(_) => "term",
        AnyScorer::BitSet(_) => "bits",
        AnyScorer::Phrase(_) => "phrase",
        AnyScorer::PhrasePrefix(_) => "prefix",
        AnyScorer::Boost(_) => "boost",
        AnyScorer::Const(_) => "const",
        AnyScorer::RequiredOptional(_) => "optional",
        AnyScorer::Exclude(_) => "exclude",
        AnyScorer::Union(_) => "union",
        AnyScorer::Disjunction(_) => "atleast",
        AnyScorer::Intersection(_) => "intersection",
    }
}
