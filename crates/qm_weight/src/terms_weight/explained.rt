//! The explanation of a weight of terms.

ghost use Rattle.std.specs.Prelude.{◌≡◌, ◌<◌, ◌≤◌, IfErr, IfOk, length};
ghost use Rattle.qm_docset.specs.Entry.{greatest_score};
ghost use Rattle.qm_term.specs.Explained.{value_of};
ghost use Rattle.qm_weight.specs.ClauseScorers.{IsClauseRefusal};
ghost use Rattle.qm_weight.specs.Explanations.{IsExplained, IsExplainRefusal};
ghost use Rattle.qm_weight.specs.TermUnions.{clauses_in, tree_in};
ghost use Rattle.qm_weight.specs.Weights.{terms_tree};

use crate::explanations::{add_clause, adding_name, explain_term};
use crate::shared_runs::score_in_node;
use crate::terms_weight::TermsWeight;
use crate::terms_weight::clause_in::ClauseIn;
use crate::terms_weight::joined::boxed_scorer;
use crate::terms_weight::term_cursor::scorer_of_term;
use qm_combine::EmptyScorer;
use qm_docset::{DocId, Score, TERMINATED};
use qm_postings::SegmentReader;
use qm_schema::QueryError;
use qm_scorer::AnyScorer;
use qm_term::Explanation;
use std::alloc::Global;

// The score of a document of the segment at a boost, and as details the clauses that match and add to it.
pub(crate) fn explain_terms(
    weight: &TermsWeight,
    alloc: Global,
    reader: &SegmentReader,
    doc: DocId,
    boost: u64,
) -> Result<Explanation, QueryError>
    requires boost { boost ≤ greatest_score }
    requires inside { doc < length reader.now.segment.documents }
    requires below { doc < TERMINATED }
    ensures explained { IfOk result (λ e. IsExplained (terms_tree weight.now) boost reader.now.segment doc (value_of e)) }
    ensures refused { IfErr result (IsExplainRefusal (terms_tree weight.now) boost reader.now.segment doc) }
{
    let scorer: AnyScorer<EmptyScorer> = boxed_scorer(weight, alloc, reader, boost)?;
    let score = score_in_node(weight, reader, scorer, doc, boost)?;
    explain_by_clauses(weight, alloc, reader, doc, boost, score)
}

// An explanation with a score as its value. Its details are those of the Must and the Should clauses that match, in
// order.
fn explain_by_clauses(
    weight: &TermsWeight,
    alloc: Global,
    reader: &SegmentReader,
    doc: DocId,
    boost: u64,
    score: Score,
) -> Result<Explanation, QueryError>
    requires boost { boost ≤ greatest_score }
    requires inside { doc < length reader.now.segment.documents }
    requires below { doc < TERMINATED }
    ensures value { IfOk result (λ e. value_of e ≡ score) }
    ensures refused { IfErr result (IsClauseRefusal (clauses_in weight.now) boost) }
{
    let mut explanation = Explanation::new(alloc, "clauses: Must added, Should combined", score)?;
    // the clauses before this one that match have their details
    for clause in &weight.clauses {
        if let Some(name) = adding_name(clause.occur) {
            let explained = explain_in(ClauseIn { weight, clause }, alloc, reader, doc, boost);
            add_clause(&mut explanation, name, explained)?;
        }
    }
    Ok(explanation)
}

// Why the document scores what it does by one of the clauses.
fn explain_in(
    clause: ClauseIn<'_>,
    alloc: Global,
    reader: &SegmentReader,
    doc: DocId,
    boost: u64,
) -> Result<Explanation, QueryError>
    requires boost { boost ≤ greatest_score }
    requires inside { doc < length reader.now.segment.documents }
    requires below { doc < TERMINATED }
    ensures explained { IfOk result (λ e. IsExplained (tree_in clause.entry) boost reader.now.segment doc (value_of e)) }
    ensures refused { IfErr result (IsExplainRefusal (tree_in clause.entry) boost reader.now.segment doc) }
{
    let leaf = scorer_of_term(clause, reader, boost)?;
    let own = clause.clause;
    explain_term(&clause, alloc, reader, leaf, &own.term, doc, boost)
}
