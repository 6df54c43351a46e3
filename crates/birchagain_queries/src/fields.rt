//! Whether a typed query names a field.

ghost use Rattle.std.specs.Prelude.{◌≡◌};
ghost use Rattle.birchagain_queries.specs.Translation.{names_field};
ghost use Rattle.qm_parser.specs.Views as typed;

use qm_parser::ParsedQuery;

/// Whether a field is named somewhere in a typed query. Looks at each query in it once.
pub(crate) fn names_field(parsed: &ParsedQuery) -> bool
    ensures { result ≡ names_field (typed.query_of parsed.now) }
{
    match parsed {
        ParsedQuery::Empty | ParsedQuery::Leaf(_) => false,
        ParsedQuery::Field(..) => true,
        ParsedQuery::Boost(_, inner) => names_field(inner),
        ParsedQuery::Boolean(clauses) => {
            // those before this one name none
            for (_, inner) in clauses {
                if names_field(inner) {
                    return true;
                }
            }
            false
        }
    }
}
