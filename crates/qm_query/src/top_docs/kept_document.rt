//! A document that is kept among the best.

ghost use Rattle.std.proofs.Common.{rules};
ghost use Rattle.std.specs.Cmp.{partial_order_from_own_ties};
ghost use Rattle.std.specs.Cmp.Rules.{comparing};
ghost use Rattle.std.specs.Ordering.{as_partial_cmp, eq_by_cmp};
ghost use Rattle.qm_query.specs.KeptDocument.{worst_last, worst_last-total};

use qm_docset::Score;
use qm_postings::DocAddress;
use std::cmp::Ordering;

/// A document and its score. The worst of some is the greatest, so that it stands at the top of a heap:
/// the one that scores least, and of those with one score the last by address.
#[derive(Clone, Copy)]
pub(super) struct KeptDocument {
    pub(super) score: Score,
    pub(super) address: DocAddress,
}

impl PartialEq for KeptDocument {
    ghost eq = { eq_by_cmp worst_last };

    ghost laws = { Prim.search (worst_last-total, comparing, rules) };

    fn eq(&self, other: &KeptDocument) -> bool {
        self.cmp(other).is_eq()
    }
}

impl Eq for KeptDocument {
    ghost laws = { Prim.search (worst_last-total, comparing, rules) };
}

impl PartialOrd for KeptDocument {
    ghost partial_cmp = { as_partial_cmp worst_last };

    ghost laws = { partial_order_from_own_ties (Prim.search (worst_last-total, comparing, rules)) (Prim.search (comparing, rules)) };

    fn partial_cmp(&self, other: &KeptDocument) -> Option<Ordering> {
        Some(self.cmp(other))
    }
}

impl Ord for KeptDocument {
    ghost cmp = { worst_last };

    ghost total = { Prim.search (worst_last-total, comparing, rules) };

    ghost matches_partial_cmp = { Prim.search (comparing, rules) };

    ghost matches_eq = { Prim.search (comparing, rules) };

    fn cmp(&self, other: &KeptDocument) -> Ordering {
        other
            .score
            .cmp(&self.score)
            .then(self.address.cmp(&other.address))
    }
}
