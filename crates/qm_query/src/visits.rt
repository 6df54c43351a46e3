//! Calls of a visitor of terms.

ghost use Rattle.std.specs.Prelude.{false};
ghost use Rattle.qm_query.specs.QueryTerms.{MayVisitTerm, MayVisitTerms, VisitsTerm, VisitsTerms, terms_of_phrase};

use qm_schema::Term;

// The call with a term, and with whether its positions are wanted.
pub(crate) fn visit_term<F: FnMut(&Term, bool)>(
    term: &Term,
    positions_wanted: bool,
    visitor: &mut F,
)
    requires { MayVisitTerm F.FnMut visitor.old (term.now, positions_wanted) }
    ensures { VisitsTerm F.FnMut visitor.old (term.now, positions_wanted) visitor.new }
{
    visitor(term, positions_wanted);
}

// A call with each term of a phrase, whose positions are wanted, in the order in which they stand.
pub(crate) fn visit_phrase<F: FnMut(&Term, bool)>(terms: &[(usize, Term)], visitor: &mut F)
    requires { MayVisitTerms F.FnMut visitor.old (terms_of_phrase terms.now) }
    ensures { VisitsTerms F.FnMut visitor.old (terms_of_phrase terms.now) visitor.new }
{
    // the calls with the terms that are left are those that are still to come
    for (_, term) in terms {
        visit_term(term, true, visitor);
    }
}
