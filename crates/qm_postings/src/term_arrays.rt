//! What a segment keeps of the postings of a term.

ghost use Rattle.std.specs.Prelude.{◌≡◌, ◌/◌, ◌≤◌, ◌<◌, length, sum, take};
ghost use Rattle.qm_postings.specs.Frequencies.{listed};
ghost use Rattle.qm_postings.specs.TermArrays.{AreArrays};
ghost use Rattle.qm_postings.specs.declared.freq_reading_option.FreqReadingOption.{FreqReadingOption};

use crate::frequencies::FrequencyPart;
use qm_docset::DocId;

/// What a segment knows of a block of a term's postings. A block has `block_len` of them, the last
/// one may have fewer.
#[derive(Clone, Copy, Debug)]
pub(crate) struct BlockInfo {
    /// Its last document, and `TERMINATED` for the last block, so that a search ends there.
    pub(crate) last_doc: DocId,
    /// The greatest of its frequencies.
    pub(crate) max_term_freq: u32,
    /// The least length id of its documents, a document whose field keeps no lengths having 1.
    pub(crate) least_fieldnorm_id: u8,
    /// How many positions the term's postings before this block have together, where they are kept.
    pub(crate) positions_start: usize,
}

/// What is read of a term's postings: a document and a frequency for each, the positions of all of
/// them end to end, and what is known of each block. Where no positions are read there are none.
#[derive(Clone, Copy, Debug)]
pub(crate) struct TermArrays<'a> {
    pub(crate) documents: &'a [DocId],
    pub(crate) frequencies: FrequencyPart<'a>,
    pub(crate) positions: &'a [u32],
    pub(crate) blocks: &'a [BlockInfo],
    pub(crate) block_len: usize,
    pub(crate) max_term_freq: u32,
}

impl<'a> TermArrays<'a> {
    // Where the positions of the posting at a place begin, which stands in the block of this number. It is
    // known where those of the posting at the mark do, and where those of each block do; so it sums the
    // frequencies of less than a block.
    pub(crate) fn positions_start(
        &self,
        place: usize,
        block: usize,
        mark: usize,
        mark_start: usize,
    ) -> usize
        requires arrays { (reading : FreqReadingOption) × AreArrays reading self.now }
        requires some { 0 < length self.now.positions.now }
        requires within { place < length (listed self.now.frequencies) }
        requires block { block ≡ place / self.now.block_len }
        requires mark { mark ≤ place }
        requires start { mark_start ≡ sum (take mark (listed self.now.frequencies)) }
        ensures { result ≡ sum (take place (listed self.now.frequencies)) }
    {
        let block_start = block * self.block_len;
        if mark < block_start {
            self.blocks[block].positions_start + self.frequencies.sum_between(block_start, place)
        } else {
            mark_start + self.frequencies.sum_between(mark, place)
        }
    }
}

pub(crate) fn sum_of(frequencies: &[u32]) -> usize
    requires { sum frequencies.now ≤ usize.MAX }
    ensures { result ≡ sum frequencies.now }
{
    let mut total = 0;
    // the sum of the frequencies before this one
    for frequency in frequencies {
        total += *frequency as usize;
    }
    total
}
