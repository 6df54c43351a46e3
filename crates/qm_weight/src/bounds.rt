//! Whether weights fit: whether the bounds on what their nodes may score, and the products of the boosts down
//! to them, are scores. Each function answers the bound where the tree fits at a boost, and none where it
//! doesn't; it looks at no segment, and takes no memory.

ghost use Rattle.std.specs.Prelude.{◌≡◌, ◌+◌, ◌≤◌, Some, SomeIff};
ghost use Rattle.qm_docset.specs.Entry.{greatest_score};
ghost use Rattle.qm_term.specs.Bm25Weight.{weighing};
ghost use Rattle.qm_weight.specs.ClauseScorers.{bound_added};
ghost use Rattle.qm_weight.specs.TermUnions.{clause_tree_in};
ghost use Rattle.qm_weight.specs.Tree.{Fits, IsLeafBound, bound};
ghost use Rattle.qm_weight.specs.Weights.{boolean_tree, boost_tree, const_tree, phrase_prefix_tree, phrase_tree, term_tree, terms_tree, tree_of, weighing_of};

use crate::any_weight::AnyWeight;
use crate::boolean_weight::BooleanWeight;
use crate::boost_weight::BoostWeight;
use crate::const_weight::ConstWeight;
use crate::phrase_prefix_weight::PhrasePrefixWeight;
use crate::phrase_weight::PhraseWeight;
use crate::products::score_product;
use crate::term_weight::TermWeight;
use crate::terms_weight::{TermClause, TermsWeight};
use qm_docset::Score;
use qm_schema::Occur;
use qm_term::Bm25Weight;

// ---- down the tree

#[cycle(bounds)]
pub(crate) fn bound_of_any(weight: &AnyWeight, boost: u64) -> Option<u64>
    requires boost { boost ≤ greatest_score }
    ensures { SomeIff result (Fits (tree_of weight.now) boost) (bound (tree_of weight.now) boost) }
{
    match weight {
        AnyWeight::All(_) | AnyWeight::Empty(_) | AnyWeight::Prefix(_) => Some(boost.max(1)),
        AnyWeight::Term(leaf) => bound_of_term(leaf, boost),
        AnyWeight::Terms(leaf) => bound_of_terms(leaf, boost),
        AnyWeight::Phrase(leaf) => bound_of_phrase(leaf, boost),
        AnyWeight::PhrasePrefix(leaf) => bound_of_phrase_prefix(leaf, boost),
        AnyWeight::Boost(node) => bound_of_boost(node, boost),
        AnyWeight::Const(node) => bound_of_const(node, boost),
        AnyWeight::Boolean(node) => bound_of_boolean(node, boost),
    }
}

// What stands inside, at the product of the boosts.
#[cycle(bounds)]
pub(crate) fn bound_of_boost(weight: &BoostWeight, boost: u64) -> Option<u64>
    requires boost { boost ≤ greatest_score }
    ensures { SomeIff result (Fits (boost_tree weight.now) boost) (bound (boost_tree weight.now) boost) }
{
    let product = score_product(boost, weight.boost)?;
    bound_of_any(&weight.weight, product)
}

// The score times the boost; what stands inside has to fit too.
#[cycle(bounds)]
pub(crate) fn bound_of_const(weight: &ConstWeight, boost: u64) -> Option<u64>
    requires boost { boost ≤ greatest_score }
    ensures { SomeIff result (Fits (const_tree weight.now) boost) (bound (const_tree weight.now) boost) }
{
    let score = score_product(boost, weight.score)?;
    bound_of_any(&weight.weight, boost)?;
    Some(score.max(1))
}

// Those of the Must and Should clauses together; a MustNot clause has to fit too.
#[cycle(bounds)]
pub(crate) fn bound_of_boolean(weight: &BooleanWeight, boost: u64) -> Option<u64>
    requires boost { boost ≤ greatest_score }
    ensures { SomeIff result (Fits (boolean_tree weight.now) boost) (bound (boolean_tree weight.now) boost) }
{
    let mut sum: u64 = 0;
    // the clauses so far fit, and those of them that may match have this bound together
    for (occur, inside) in weight.weights.as_slice() {
        let bound = bound_of_any(inside, boost)?;
        sum = sum_with(sum, *occur, bound)?;
    }
    Some(sum.max(1))
}

// The bounds of some clauses together, with that of one more, which occurs so; none where that is no score.
fn sum_with(sum: u64, occur: Occur, bound: u64) -> Option<u64>
    requires sum { sum ≤ greatest_score }
    requires bound { bound ≤ greatest_score }
    ensures { SomeIff result (sum + bound_added occur bound ≤ greatest_score) (sum + bound_added occur bound) }
{
    let more = sum + added(occur, bound);
    if more > Score::MAX as u64 {
        return None;
    }
    Some(more)
}

// What a clause adds, which occurs so and has this bound.
fn added(occur: Occur, bound: u64) -> u64
    ensures { result ≡ bound_added occur bound }
{
    match occur {
        Occur::Must | Occur::Should => bound,
        Occur::MustNot => 0,
    }
}

// ---- leaves

pub(crate) fn bound_of_term(weight: &TermWeight, boost: u64) -> Option<u64>
    requires boost { boost ≤ greatest_score }
    ensures { SomeIff result (Fits (term_tree weight.now) boost) (bound (term_tree weight.now) boost) }
{
    if weight.scoring_enabled {
        bound_of_weighed(&weight.similarity_weight, boost)
    } else {
        Some(boost.max(1))
    }
}

pub(crate) fn bound_of_phrase(weight: &PhraseWeight, boost: u64) -> Option<u64>
    requires boost { boost ≤ greatest_score }
    ensures { SomeIff result (Fits (phrase_tree weight.now) boost) (bound (phrase_tree weight.now) boost) }
{
    bound_of_leaf(&weight.similarity_weight, boost)
}

// One full term scores the boost of its weight.
pub(crate) fn bound_of_phrase_prefix(weight: &PhrasePrefixWeight, boost: u64) -> Option<u64>
    requires boost { boost ≤ greatest_score }
    ensures { SomeIff result (Fits (phrase_prefix_tree weight.now) boost) (bound (phrase_prefix_tree weight.now) boost) }
{
    let bound = bound_of_leaf(&weight.similarity_weight, boost)?;
    if weight.phrase_terms.len() > 1 {
        return Some(bound);
    }
    match &weight.similarity_weight {
        Some(similarity) => Some(bound.max(score_product(boost, similarity.boost() as u64)?)),
        None => Some(bound),
    }
}

// That of a leaf that has a weight, or none.
fn bound_of_leaf(weight: &Option<Bm25Weight>, boost: u64) -> Option<u64>
    requires boost { boost ≤ greatest_score }
    ensures { IsLeafBound (weighing_of weight.now) boost result }
{
    match weight {
        Some(weight) => bound_of_weighed(weight, boost),
        None => Some(boost.max(1)),
    }
}

// That of a leaf with this weight, whose boost is multiplied too.
fn bound_of_weighed(weight: &Bm25Weight, boost: u64) -> Option<u64>
    requires boost { boost ≤ greatest_score }
    ensures { IsLeafBound (Some (weighing weight.now)) boost result }
{
    score_product(boost, weight.boost() as u64)?;
    let greatest = score_product(boost, weight.max_score() as u64)?;
    Some(greatest.max(1))
}

// ---- several terms

// Those of the Must and Should terms together; a MustNot term has to fit too.
pub(crate) fn bound_of_terms(weight: &TermsWeight, boost: u64) -> Option<u64>
    requires boost { boost ≤ greatest_score }
    ensures { SomeIff result (Fits (terms_tree weight.now) boost) (bound (terms_tree weight.now) boost) }
{
    let mut sum: u64 = 0;
    // the clauses so far fit, and those of them that may match have this bound together
    for clause in &weight.clauses {
        let bound = bound_of_clause(weight, clause, boost)?;
        sum = sum_with(sum, clause.occur, bound)?;
    }
    Some(sum.max(1))
}

// That of one of the clauses.
fn bound_of_clause(weight: &TermsWeight, clause: &TermClause, boost: u64) -> Option<u64>
    requires boost { boost ≤ greatest_score }
    ensures { SomeIff result (Fits (clause_tree_in weight.now clause.now) boost) (bound (clause_tree_in weight.now clause.now) boost) }
{
    if weight.rule.scoring_enabled {
        let greatest = score_product(boost, clause.weight)?;
        Some(greatest.max(1))
    } else {
        Some(boost.max(1))
    }
}
