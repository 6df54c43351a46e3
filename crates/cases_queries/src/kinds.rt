//! Which variant a weight is.

use qm_weight::AnyWeight;

/// The word for the variant of a weight.
pub fn kind_of_weight(weight: &AnyWeight) -> &'static str {
    match weight {
        AnyWeight::All(_) => "all",
        AnyWeight::Empty(_) => "none",
        AnyWeight::Term(_) => "term",
        AnyWeight::Terms(_) => "terms",
        AnyWeight::Phrase(_) => "phrase",
        AnyWeight::PhrasePrefix(_) => "prefix",
        AnyWeight::Prefix(_) => "words",
        AnyWeight::Boost(_) => "boost",
        AnyWeight::Const(_) => "const",
        AnyWeight::Boolean(_) => "bool",
    }
}
