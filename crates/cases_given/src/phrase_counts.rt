//! How often the words of a phrase stand together, by the scorer that a weight builds.

ghost use Rattle.qm_docset.specs.Lists.{IsPlaced};

use crate::kinds::kind_of_scorer;
use cases::{Done, Fault, Listing, Memory, end_refusals};
use qm_combine::EmptyScorer;
use qm_docset::{DocSet, TERMINATED};
use qm_phrase::{PhrasePrefixScorer, PhraseScorer};
use qm_postings::{SegmentPostings, SegmentReader};
use qm_scorer::AnyScorer;
use qm_weight::Weight;
use std::alloc::Global;

/// Which variant the scorer of a weight is.
pub fn write_kind<W: Weight>(
    alloc: Global,
    segment: &SegmentReader,
    weight: &W,
    memory: Memory,
    text: &mut Listing,
) -> Done {
    memory.begin(alloc);
    let made = weight.scorer::<EmptyScorer>(alloc, segment, 1);
    end_refusals(alloc);
    match made {
        Ok(scorer) => Ok(text.word(kind_of_scorer(&scorer))),
        Err(error) => Err(Fault::Refused(error)),
    }
}

/// The documents where a phrase stands, each with how often it does.
pub fn write_counts<W: Weight>(
    alloc: Global,
    segment: &SegmentReader,
    weight: &W,
    text: &mut Listing,
) -> Done {
    match weight.scorer::<EmptyScorer>(alloc, segment, 1) {
        Ok(AnyScorer::Phrase(mut phrase)) => Ok(count_phrase(&mut phrase, text)),
        Ok(AnyScorer::PhrasePrefix(mut phrase)) => Ok(count_prefix(&mut phrase, text)),
        Ok(_) => Err(Fault::NotAllowed),
        Err(error) => Err(Fault::Refused(error)),
    }
}

fn count_phrase<'a>(phrase: &mut PhraseScorer<'a, SegmentPostings<'a>>, text: &mut Listing)
    requires { IsPlaced ⟦<PhraseScorer<'a, SegmentPostings<'a>> as DocSet>⟧ phrase.old }
{
    // the phrase is placed, and lists fewer documents than these
    for _ in 0..TERMINATED {
        let doc = phrase.doc();
        if doc >= TERMINATED {
            break;
        }
        text.score(doc, i64::from(phrase.phrase_count()));
        phrase.advance();
    }
}

fn count_prefix<'a>(phrase: &mut PhrasePrefixScorer<'a, SegmentPostings<'a>>, text: &mut Listing)
    requires { IsPlaced ⟦<PhrasePrefixScorer<'a, SegmentPostings<'a>> as DocSet>⟧ phrase.old }
{
    // the phrase is placed, and lists fewer documents than these
    for _ in 0..TERMINATED {
        let doc = phrase.doc();
        if doc >= TERMINATED {
            break;
        }
        text.score(doc, i64::from(phrase.phrase_count()));
        phrase.advance();
    }
}
