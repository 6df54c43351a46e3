//! Nodes of trees over one scorer or two.

ghost use Rattle.std.specs.Prelude.{◌≤ℤ◌, IfOk, IfSome, pos};
ghost use Rattle.qm_docset.specs.Lists.{IsPlaced};

use crate::tree::Tree;
use cases::{Fault, Leaf, end_refusals, score};
use cases_given::Form;
use qm_docset::{DocSet, Score};
use qm_scorer::{AnyScorer, boost, constant, required_optional};
use std::alloc::Global;

/// The boost or the constant of `boost K T` or `const S T`.
pub fn read_factor(form: Form<'_>) -> Result<Score, Fault>
    ensures { IfOk result (λ factor. pos 0 ≤ℤ factor) }
{
    match score(form.words, 0) {
        Some(factor) => Ok(factor),
        None => Err(Fault::NotUnderstood),
    }
}

/// `boost K T` or `const S T`.
pub fn build_over<'a>(
    alloc: Global,
    form: Form<'_>,
    factor: Score,
    inner: Tree<'a>,
) -> Result<Tree<'a>, Fault>
    requires factor { pos 0 ≤ℤ factor }
    requires inner { IsPlaced ⟦<AnyScorer<'a, Leaf<'a>> as DocSet>⟧ inner }
    ensures { IfOk result (IsPlaced ⟦<AnyScorer<'a, Leaf<'a>> as DocSet>⟧) }
{
    form.memory.begin(alloc);
    let made = if form.name == "boost" {
        boost(alloc, inner, factor)
    } else {
        constant(alloc, inner, factor)
    };
    end_refusals(alloc);
    Ok(made?)
}

/// `optional T T`.
pub fn build_two<'a>(
    alloc: Global,
    form: Form<'_>,
    required: Tree<'a>,
    optional: Tree<'a>,
) -> Result<Tree<'a>, Fault>
    requires required { IsPlaced ⟦<AnyScorer<'a, Leaf<'a>> as DocSet>⟧ required }
    requires optional { IsPlaced ⟦<AnyScorer<'a, Leaf<'a>> as DocSet>⟧ optional }
    ensures { IfOk result (IsPlaced ⟦<AnyScorer<'a, Leaf<'a>> as DocSet>⟧) }
{
    form.memory.begin(alloc);
    let made = required_optional(alloc, required, optional);
    end_refusals(alloc);
    Ok(made?)
}
