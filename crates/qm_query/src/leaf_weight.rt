//! What the terms of a leaf weigh, by what a weight is built under.
//!
//! The weight of a term is made where it is kept: each `Result` on its way would copy it, a kilobyte.

ghost use Rattle.std.specs.Prelude.{◌≡◌, ◌⊎◌, ◌≤ℤ◌, IfErr, IfOk, nat_abs, pos};
ghost use Rattle.std.specs.List.Sorted.{IsNonDecreasing};
ghost use Rattle.qm_schema.specs.declared.error.QueryError.TheVariants.{Memory};
ghost use Rattle.qm_weight.specs.Weights.{weighing_of};
ghost use Rattle.qm_query.specs.Offsets.{bare_terms};
ghost use Rattle.qm_query.specs.QueryTree.{leaf_weighing};
ghost use Rattle.qm_query.specs.SharedTerms.{WeighsTerms, shared_norms};
ghost use Rattle.qm_query.specs.WeightRefusals.{IsByProvider};

use crate::enable_scoring::EnableScoring;
use crate::offsets::{clone_without_offsets, put_at_offsets};
use qm_docset::Score;
use qm_postings::Bm25StatisticsProvider;
use qm_schema::{QueryError, Term};
use qm_term::Bm25Weight;
use std::alloc::Global;

// What these terms weigh together. With scoring off that is nothing, and no provider is asked.
pub(crate) fn leaf_weight<P: Bm25StatisticsProvider>(
    enable_scoring: EnableScoring<'_, P>,
    terms: &[Term],
) -> Result<Option<Bm25Weight>, QueryError>
    ensures weighing { IfOk result (λ weight. weighing_of weight ≡ leaf_weighing P.Bm25StatisticsProvider enable_scoring.entry terms.now) }
    ensures refused { IfErr result (IsByProvider P.Bm25StatisticsProvider enable_scoring.entry terms.now) }
{
    match enable_scoring {
        EnableScoring::Enabled {
            statistics_provider,
            ..
        } => Ok(Some(Bm25Weight::for_terms(statistics_provider, terms)?)),
        EnableScoring::Disabled { .. } => Ok(None),
    }
}

// The terms of a phrase with their offsets, in memory of their own, and what they weigh together. Each
// is copied once: the provider is shown the copies that the weight is to keep.
pub(crate) fn weighed_terms<P: Bm25StatisticsProvider>(
    alloc: Global,
    enable_scoring: EnableScoring<'_, P>,
    terms: &[(usize, Term)],
) -> Result<(Vec<(usize, Term)>, Option<Bm25Weight>), QueryError>
    ensures terms { IfOk result (λ weighed. weighed.0.items ≡ terms.now) }
    ensures weighing { IfOk result (λ weighed. weighing_of weighed.1 ≡ leaf_weighing P.Bm25StatisticsProvider enable_scoring.entry (bare_terms terms.now)) }
    ensures refused { IfErr result (λ error. (error ≡ Memory) ⊎ IsByProvider P.Bm25StatisticsProvider enable_scoring.entry (bare_terms terms.now) error) }
{
    let copies = clone_without_offsets(alloc, terms)?;
    let weight = leaf_weight(enable_scoring, &copies)?;
    let copies = put_at_offsets(alloc, terms, copies)?;
    Ok((copies, weight))
}

// The norms of a term that isn't to score.
const NO_NORMS: [u32; 256] = [0; 256];

// What terms weigh that aren't to score. Its norms need no look at each, as those of a caller would.
struct Unscored;

impl Bm25StatisticsProvider for Unscored {
    ghost use Rattle.std.proofs.Common.{replicate};

    ghost weight_of = { λ unscored terms. 0 };

    ghost norms_of = { λ unscored. replicate 256 0 };

    ghost may_refuse = { λ unscored terms error. ⊥ };

    fn weight(&self, _terms: &[Term]) -> Result<Score, QueryError> {
        Ok(0)
    }

    fn norms(&self) -> &[u32; 256] {
        &NO_NORMS
    }

    ghost refusals = { λ unscored terms error refused. absurd refused };
}

// The weight of a term that isn't to score.
pub(crate) fn no_weight() -> Bm25Weight {
    Bm25Weight::for_terms(&Unscored, &[]).unwrap()
}

// ---- terms that share the norms

// What terms weigh together, beside their norms. With scoring off that is nothing, and no provider is asked.
pub(crate) fn shared_weight<P: Bm25StatisticsProvider>(
    enable_scoring: EnableScoring<'_, P>,
    terms: &[Term],
) -> Result<Score, QueryError>
    ensures weighs { IfOk result (λ weight. pos 0 ≤ℤ weight) }
    ensures weighing { IfOk result (λ weight. WeighsTerms P.Bm25StatisticsProvider enable_scoring.entry terms.now (nat_abs weight)) }
    ensures refused { IfErr result (IsByProvider P.Bm25StatisticsProvider enable_scoring.entry terms.now) }
{
    match enable_scoring {
        EnableScoring::Enabled {
            statistics_provider,
            ..
        } => statistics_provider.weight(terms),
        EnableScoring::Disabled { .. } => Ok(0),
    }
}

// The norms that all terms of a query share.
pub(crate) fn shared_norms<'a, P: Bm25StatisticsProvider>(
    enable_scoring: EnableScoring<'a, P>,
) -> &'a [u32; 256]
    ensures norms { result.now ≡ shared_norms P.Bm25StatisticsProvider enable_scoring.entry }
    ensures ascending { IsNonDecreasing result.now }
{
    match enable_scoring {
        EnableScoring::Enabled {
            statistics_provider,
            ..
        } => statistics_provider.norms(),
        EnableScoring::Disabled { .. } => &NO_NORMS,
    }
}
