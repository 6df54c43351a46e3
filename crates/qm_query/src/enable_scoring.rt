//! Whether scores are wanted, and where the weights of terms come from.

ghost use Rattle.std.specs.Prelude.{◌≡◌, true, false, Some, None};
ghost use Rattle.std.specs.Option.{option_copied};
ghost use Rattle.qm_query.specs.EnableScoring.{is_enabled, provider_of, schema_of, searcher_of};

use qm_postings::Searcher;
use qm_schema::Schema;
use std::alloc::AllocError;

/// Whether the weight of a query has to score, and what the query is asked of. `P` is the type of what
/// answers the weights of terms.
///
/// Each call takes constant time and no memory.
pub enum EnableScoring<'a, P> {
    /// Scores are wanted.
    Enabled {
        /// What is searched.
        searcher: &'a Searcher,
        /// What answers the weights of terms.
        statistics_provider: &'a P,
    },
    /// The documents alone are wanted.
    Disabled {
        /// The fields of the documents.
        schema: &'a Schema,
        /// What is searched, where it is known.
        searcher_opt: Option<&'a Searcher>,
    },
}

/// A copy is equal to the original. It takes no memory, so it is never refused.
impl<'a, P> Clone for EnableScoring<'a, P> {
    ghost is_clone = { λ scoring copy. copy ≡ scoring };

    ghost is_infallible = { λ _. Unit {0} };

    fn clone(&self) -> Result<EnableScoring<'a, P>, AllocError> {
        Ok(*self)
    }
}

impl<'a, P> Copy for EnableScoring<'a, P> {}

impl<'a> EnableScoring<'a, Searcher> {
    /// Scoring with the weights that the searcher itself gives to terms.
    pub fn enabled_from_searcher(searcher: &'a Searcher) -> EnableScoring<'a, Searcher>
        ensures searcher { searcher_of result ≡ Some searcher.now }
        ensures schema { schema_of result ≡ searcher.now.schema }
        ensures provider { provider_of result ≡ Some searcher.now }
    {
        EnableScoring::Enabled {
            searcher,
            statistics_provider: searcher,
        }
    }
}

impl<'a, P> EnableScoring<'a, P> {
    /// Scoring with the weights of a provider of one's own.
    pub fn enabled_from_statistics_provider(
        statistics_provider: &'a P,
        searcher: &'a Searcher,
    ) -> EnableScoring<'a, P>
        ensures searcher { searcher_of result ≡ Some searcher.now }
        ensures schema { schema_of result ≡ searcher.now.schema }
        ensures provider { provider_of result ≡ Some statistics_provider.now }
    {
        EnableScoring::Enabled {
            searcher,
            statistics_provider,
        }
    }

    /// No scoring, over the segments of a searcher.
    pub fn disabled_from_searcher(searcher: &'a Searcher) -> EnableScoring<'a, P>
        ensures searcher { searcher_of result ≡ Some searcher.now }
        ensures schema { schema_of result ≡ searcher.now.schema }
        ensures provider { provider_of result ≡ None }
    {
        EnableScoring::Disabled {
            schema: searcher.schema(),
            searcher_opt: Some(searcher),
        }
    }

    /// No scoring, where the fields alone are known.
    pub fn disabled_from_schema(schema: &'a Schema) -> EnableScoring<'a, P>
        ensures searcher { searcher_of result ≡ None }
        ensures schema { schema_of result ≡ schema.now }
        ensures provider { provider_of result ≡ None }
    {
        EnableScoring::Disabled {
            schema,
            searcher_opt: None,
        }
    }

    /// What is searched, where it is known.
    pub fn searcher(&self) -> Option<&'a Searcher>
        ensures { option_copied result ≡ searcher_of self.now }
    {
        match self {
            EnableScoring::Enabled { searcher, .. } => Some(*searcher),
            EnableScoring::Disabled { searcher_opt, .. } => *searcher_opt,
        }
    }

    /// The fields of the documents.
    pub fn schema(&self) -> &'a Schema
        ensures { result.now ≡ schema_of self.now }
    {
        match self {
            EnableScoring::Enabled { searcher, .. } => searcher.schema(),
            EnableScoring::Disabled { schema, .. } => *schema,
        }
    }

    /// Whether scores are wanted.
    pub fn is_scoring_enabled(&self) -> bool
        ensures { result ≡ is_enabled self.now }
    {
        match self {
            EnableScoring::Enabled { .. } => true,
            EnableScoring::Disabled { .. } => false,
        }
    }
}
