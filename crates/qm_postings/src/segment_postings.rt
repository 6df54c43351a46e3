//! A cursor over the postings of a term.
//!
//! A cursor knows its block. So a seek within it gallops, and no posting of a block that is passed over is touched.

ghost use Rattle.std.specs.Prelude.{ℕ, ◌≡◌, ◌+◌, ◌*◌, ◌/◌, ◌≤◌, ◌<◌, ◌++◌, IfSome, List, [], drop, length, map, min, take};
ghost use Rattle.std.specs.Prelude.{All, slice_index, slice_index_or, vec_capacity, vec_len};
ghost use Rattle.std.specs.Option.{option_map_or};
ghost use Rattle.qm_docset.specs.Cursor.{IsSeekAnswer, OnFound};
ghost use Rattle.qm_docset.specs.Entry.{below, documents, from, head_document, head_frequency, head_positions};
ghost use Rattle.qm_docset.specs.Lists.{Lists};
ghost use Rattle.qm_postings.specs.Blocks.{AreAboveLeast, Block, EndBelow, block_at, block_read, looked_at, no_block};
ghost use Rattle.qm_postings.specs.Positions.{HasAdded, shifted};
ghost use Rattle.qm_postings.specs.SegmentPostingsFacts.{AreEntries-postings, ArePositions-postings};
ghost use Rattle.qm_postings.specs.SegmentPostings.{IsPostings, LooksAs, LooksHere, ReadsAs, looked_block, looked_number};
ghost use Rattle.qm_postings.specs.SegmentPostings.{postings_blocks, postings_left, postings_limits, reads};
ghost use Rattle.qm_postings.specs.Stored.{frequency_read};
ghost use Rattle.qm_postings.specs.TermArrays.{AreArrays, KeepsBlocksBy, array_limits, stored};

use crate::end_below::end_below;
use crate::freq_reading_option::FreqReadingOption;
use crate::postings::Postings;
use crate::term_arrays::{BlockInfo, TermArrays};
use qm_docset::{
    COLLECT_BLOCK_BUFFER_LEN, DocId, DocSet, SeekDangerResult, TERMINATED, gallop, seek_answer,
};

/// A cursor over the documents that hold a term, each with how often it does, and at which
/// positions, where these are kept and were asked for. It borrows the arrays of its segment; copying
/// it takes no memory.
#[derive(Clone, Copy, Debug)]
pub struct SegmentPostings<'a> {
    arrays: TermArrays<'a>,
    reading: FreqReadingOption,
    cursor: usize,
    // a posting that the cursor stands on or has gone by, and where its positions begin
    mark: usize,
    mark_start: usize,
    // a block that begins at the cursor or before it, mostly the one that the cursor stands in: its number, the
    // place at which it ends, and its last document, which is `TERMINATED` for the last block
    block: usize,
    block_end: usize,
    last_doc: DocId,
    // a place, and the number of the block that is looked at while the cursor stands there; at any other
    // place it is the block of that place
    look_from: usize,
    look: usize,
}

impl<'a> SegmentPostings<'a> {
    pub(crate) fn new(arrays: TermArrays<'a>, reading: FreqReadingOption) -> SegmentPostings<'a>
        requires { AreArrays reading arrays }
        ensures lists { Lists ⟦<SegmentPostings<'a> as DocSet>⟧ result (stored reading arrays.entry) (array_limits arrays.entry) }
        ensures reading { reads result ≡ reading }
        ensures blocks { postings_blocks result ≡ map (block_read reading) arrays.entry.blocks.now }
        ensures looked { LooksHere result }
        ensures ids { (ids : List ℕ) → KeepsBlocksBy arrays.entry ids → AreAboveLeast ids (postings_blocks result) (postings_left result) }
    {
        SegmentPostings {
            arrays,
            reading,
            cursor: 0,
            mark: 0,
            mark_start: 0,
            block: 0,
            block_end: 0,
            last_doc: 0,
            look_from: 0,
            look: 0,
        }
    }

    /// What is read of the frequencies.
    pub fn freq_reading_option(&self) -> FreqReadingOption
        ensures { result ≡ reads self.now }
    {
        self.reading
    }

    /// Looks at the first block that ends at or past `target`, from the block of the cursor's document
    /// on; at none past the end. The cursor stays. Takes every target up to [`TERMINATED`].
    ///
    /// Costs the logarithm of the number of blocks that are passed, from the block looked at on where
    /// that lies before the target.
    pub fn seek_block(&mut self, target: DocId)
        requires valid { IsPostings self.old }
        requires target { target ≤ TERMINATED }
        ensures looked { looked_block self.new ≡ looked_at target (head_document (postings_left self.old)) (postings_blocks self.old) }
        ensures entries { postings_left self.new ≡ postings_left self.old }
        ensures limits { postings_limits self.new ≡ postings_limits self.old }
        ensures kept { (s : _) → ReadsAs s self.old → ReadsAs s self.new }
        ensures valid { IsPostings self.new }
    {
        if self.cursor == self.arrays.documents.len() {
            return;
        }
        self.look = self.block_from(target);
        self.look_from = self.cursor;
    }

    /// The end of the block looked at: its last document, and [`TERMINATED`] for the last block and past
    /// the end. Constant time.
    pub fn last_doc_in_block(&self) -> DocId
        requires { IsPostings self.now }
        ensures { result ≡ (looked_block self.now).last }
    {
        match self.block_looked_at() {
            Some(block) => block.last_doc,
            None => TERMINATED,
        }
    }

    /// The least length id of the documents of the block looked at, which is 1 where their field keeps
    /// no lengths, and 0 past the end. Constant time.
    pub fn block_least_fieldnorm_id(&self) -> u8
        requires { IsPostings self.now }
        ensures { result ≡ (looked_block self.now).least_id }
    {
        match self.block_looked_at() {
            Some(block) => block.least_fieldnorm_id,
            None => 0,
        }
    }

    /// The greatest frequency in the block looked at, as frequencies are read, and 0 past the end.
    /// Constant time.
    pub fn block_max_term_freq(&self) -> u32
        requires { IsPostings self.now }
        ensures { result ≡ (looked_block self.now).most }
    {
        match self.block_looked_at() {
            Some(block) => frequency_read(self.reading, block.max_term_freq),
            None => 0,
        }
    }

    // The block looked at, and none past the end.
    fn block_looked_at(&self) -> Option<BlockInfo>
        requires { IsPostings self.now }
        ensures { looked_block self.now ≡ option_map_or (block_read (reads self.now)) result no_block }
    {
        if self.cursor == self.arrays.documents.len() {
            return None;
        }
        let blocks = self.arrays.blocks;
        Some(blocks[self.number_looked_at()])
    }

    // The number of the block looked at.
    fn number_looked_at(&self) -> usize
        requires valid { IsPostings self.now }
        requires here { self.now.cursor < length self.now.arrays.documents.now }
        ensures { result ≡ looked_number self.now }
    {
        if self.look_from == self.cursor {
            self.look
        } else {
            self.block_here()
        }
    }

    // The number of the block of the cursor's posting: mostly still that which the last seek found, and then
    // nothing is divided.
    fn block_here(&self) -> usize
        requires valid { IsPostings self.now }
        requires here { self.now.cursor < length self.now.arrays.documents.now }
        ensures { result ≡ self.now.cursor / self.now.arrays.block_len }
    {
        if self.cursor < self.block_end {
            self.block
        } else {
            self.cursor / self.arrays.block_len
        }
    }

    // The first block from the cursor's on that ends at or past the target.
    fn block_from(&self, target: DocId) -> usize
        requires valid { IsPostings self.now }
        requires here { self.now.cursor < length self.now.arrays.documents.now }
        requires target { target ≤ TERMINATED }
        ensures within { result < length self.now.arrays.blocks.now }
        ensures from { self.now.cursor / self.now.arrays.block_len ≤ result }
        ensures passed { EndBelow target (self.now.cursor / self.now.arrays.block_len) result (postings_blocks self.now) }
        ensures reached { (d : Block) → target ≤ (slice_index_or (postings_blocks self.now) result d).last }
    {
        let blocks = self.arrays.blocks;
        let mut low = self.block_before(target);
        let mut high = blocks.len() - 1;
        let mut stride: usize = 1;
        // all from the cursor's on before low end below the target, and high does not
        while stride <= high - low {
            let probe = low + (stride - 1);
            if blocks[probe].last_doc >= target {
                high = probe;
                break;
            }
            low = probe + 1;
            stride = stride.saturating_mul(2);
        }
        // as before
        while low < high {
            let middle = low + (high - low) / 2;
            if blocks[middle].last_doc < target {
                low = middle + 1;
            } else {
                high = middle;
            }
        }
        low
    }

    // The number of a block from the cursor's on before which all end below the target: that of the
    // block looked at where it is one, and else that of the cursor's.
    fn block_before(&self, target: DocId) -> usize
        requires valid { IsPostings self.now }
        requires here { self.now.cursor < length self.now.arrays.documents.now }
        ensures within { result < length self.now.arrays.blocks.now }
        ensures from { self.now.cursor / self.now.arrays.block_len ≤ result }
        ensures passed { EndBelow target (self.now.cursor / self.now.arrays.block_len) result (postings_blocks self.now) }
    {
        let here = self.block_here();
        if self.look_from != self.cursor || self.look <= here {
            return here;
        }
        let blocks = self.arrays.blocks;
        if blocks[self.look - 1].last_doc < target {
            self.look
        } else {
            here
        }
    }

    // Goes on to the first block that ends at or past the target, unless the cursor stands in it: all documents
    // on the way are below the target.
    fn enter_block(&mut self, target: DocId)
        requires valid { IsPostings self.old }
        requires here { self.old.cursor < length self.old.arrays.documents.now }
        requires target { target ≤ TERMINATED }
        ensures entries { from target (postings_left self.new) ≡ from target (postings_left self.old) }
        ensures limits { postings_limits self.new ≡ postings_limits self.old }
        ensures kept { (s : _) → ReadsAs s self.old → ReadsAs s self.new }
        ensures valid { IsPostings self.new }
        ensures within { self.new.cursor < self.new.block_end }
        ensures reached { target ≤ self.new.last_doc }
    {
        let blocks = self.arrays.blocks;
        let block = self.block_from(target);
        let end = self.end_of(block);
        self.cursor = self.cursor.max(block * self.arrays.block_len);
        self.block = block;
        self.block_end = end;
        self.last_doc = blocks[block].last_doc;
    }

    // A seek within the block that is known, which has the target or ends behind it.
    #[inline]
    fn seek_in_block(&mut self, target: DocId) -> DocId
        requires valid { IsPostings self.old }
        requires within { self.old.cursor < self.old.block_end }
        requires reached { target ≤ self.old.last_doc }
        ensures head { result ≡ head_document (postings_left self.new) }
        ensures entries { postings_left self.new ≡ from target (postings_left self.old) }
        ensures limits { postings_limits self.new ≡ postings_limits self.old }
        ensures kept { (s : _) → ReadsAs s self.old → ReadsAs s self.new }
        ensures valid { IsPostings self.new }
        ensures looked { LooksHere self.new }
    {
        let documents = self.arrays.documents;
        let place = gallop(&documents[..self.block_end], self.cursor, target);
        self.cursor = place;
        self.look_from = place;
        self.look = self.block;
        self.doc()
    }

    // The place at which a block ends.
    fn end_of(&self, block: usize) -> usize
        requires valid { IsPostings self.now }
        requires within { block < length self.now.arrays.blocks.now }
        ensures { result ≡ min ((block + 1) * self.now.arrays.block_len) (length self.now.arrays.documents.now) }
    {
        let start = block * self.arrays.block_len;
        start
            + self
                .arrays
                .block_len
                .min(self.arrays.documents.len() - start)
    }

    // The positions of the posting that the cursor stands on; the mark comes along.
    fn positions_here(&mut self) -> &'a [u32]
        requires valid { IsPostings self.old }
        requires here { head_document (postings_left self.old) < TERMINATED }
        ensures positions { result.now ≡ head_positions (postings_left self.old) }
        ensures entries { postings_left self.new ≡ postings_left self.old }
        ensures limits { postings_limits self.new ≡ postings_limits self.old }
        ensures kept { (s : _) → ReadsAs s self.old → ReadsAs s self.new }
        ensures stays { LooksAs self.old self.new }
        ensures valid { IsPostings self.new }
    {
        let arrays = self.arrays;
        if arrays.positions.is_empty() {
            return arrays.positions;
        }
        let block = self.block_here();
        let start = arrays.positions_start(self.cursor, block, self.mark, self.mark_start);
        self.mark = self.cursor;
        self.mark_start = start;
        let end = start + arrays.frequencies.at(self.cursor) as usize;
        &arrays.positions[start..end]
    }
}

/// A cursor over postings is always placed. `seek` costs the logarithm of the number of blocks that it passes,
/// from the block looked at on where that lies before the target, and of the distance within the block that
/// has it; it does not touch the postings of the blocks that it passes. A buffer or a count costs no step at
/// all.
impl<'a> DocSet for SegmentPostings<'a> {
    ghost entries = { postings_left };

    ghost limits = { postings_limits };

    ghost keeps = { ReadsAs };

    ghost placed = { λ _. Unit {0} };

    ghost valid = { IsPostings };

    fn doc(&self) -> DocId {
        match self.arrays.documents.get(self.cursor) {
            Some(doc) => *doc,
            None => TERMINATED,
        }
    }

    fn advance(&mut self) -> DocId
        requires valid { IsPostings self.old }
        ensures head { result ≡ head_document (postings_left self.new) }
        ensures entries { postings_left self.new ≡ drop 1 (postings_left self.old) }
        ensures limits { postings_limits self.new ≡ postings_limits self.old }
        ensures kept { (s : _) → ReadsAs s self.old → ReadsAs s self.new }
        ensures valid { IsPostings self.new }
        ensures looked { LooksHere self.new }
    {
        if self.cursor < self.arrays.documents.len() {
            self.cursor += 1;
        }
        self.doc()
    }

    fn seek(&mut self, target: DocId) -> DocId
        requires valid { IsPostings self.old }
        requires target { target ≤ TERMINATED }
        ensures head { result ≡ head_document (postings_left self.new) }
        ensures entries { postings_left self.new ≡ from target (postings_left self.old) }
        ensures limits { postings_limits self.new ≡ postings_limits self.old }
        ensures kept { (s : _) → ReadsAs s self.old → ReadsAs s self.new }
        ensures valid { IsPostings self.new }
        ensures looked { LooksHere self.new }
    {
        if self.cursor < self.block_end && target <= self.last_doc {
            return self.seek_in_block(target);
        }
        if self.cursor == self.arrays.documents.len() {
            return TERMINATED;
        }
        self.enter_block(target);
        self.seek_in_block(target)
    }

    fn seek_danger(&mut self, target: DocId) -> SeekDangerResult
        requires valid { IsPostings self.old }
        requires target { target ≤ TERMINATED }
        ensures answer { IsSeekAnswer target (postings_left self.new) result }
        ensures placed { OnFound result (Unit {0}) }
        ensures entries { postings_left self.new ≡ from target (postings_left self.old) }
        ensures limits { postings_limits self.new ≡ postings_limits self.old }
        ensures kept { (s : _) → ReadsAs s self.old → ReadsAs s self.new }
        ensures valid { IsPostings self.new }
        ensures looked { LooksHere self.new }
    {
        let doc = self.seek(target);
        seek_answer(target, doc)
    }

    fn fill_buffer(&mut self, buffer: &mut [DocId; COLLECT_BLOCK_BUFFER_LEN]) -> usize
        requires valid { IsPostings self.old }
        ensures count { result ≡ min COLLECT_BLOCK_BUFFER_LEN (length (postings_left self.old)) }
        ensures documents { take result buffer.new ≡ documents (take COLLECT_BLOCK_BUFFER_LEN (postings_left self.old)) }
        ensures entries { postings_left self.new ≡ drop COLLECT_BLOCK_BUFFER_LEN (postings_left self.old) }
        ensures limits { postings_limits self.new ≡ postings_limits self.old }
        ensures kept { (s : _) → ReadsAs s self.old → ReadsAs s self.new }
        ensures valid { IsPostings self.new }
        ensures looked { LooksHere self.new }
    {
        let documents = self.arrays.documents;
        let count = COLLECT_BLOCK_BUFFER_LEN.min(documents.len() - self.cursor);
        let end = self.cursor + count;
        buffer[..count].copy_from_slice(&documents[self.cursor..end]);
        self.cursor = end;
        count
    }

    fn fill_buffer_below(
        &mut self,
        bound: DocId,
        buffer: &mut [DocId; COLLECT_BLOCK_BUFFER_LEN],
    ) -> usize {
        let documents = self.arrays.documents;
        let end = end_below(self.arrays.documents, self.cursor, bound);
        let count = end - self.cursor;
        buffer[..count].copy_from_slice(&documents[self.cursor..end]);
        self.cursor = end;
        count
    }

    fn size_hint(&self) -> u32 {
        (self.arrays.documents.len() - self.cursor) as u32
    }

    fn count_including_deleted(&mut self) -> u32 {
        let count = (self.arrays.documents.len() - self.cursor) as u32;
        self.cursor = self.arrays.documents.len();
        count
    }

    ghost ascending = { λ s h. AreEntries-postings s h };
}

/// The block looked at stays in calls that answer positions.
impl<'a> Postings for SegmentPostings<'a> {
    ghost stays = { LooksAs };

    fn term_freq(&self) -> u32 {
        match self.reading {
            FreqReadingOption::ReadFreq => self.arrays.frequencies.at(self.cursor),
            FreqReadingOption::NoFreq | FreqReadingOption::SkipFreq => 1,
        }
    }

    fn max_term_freq(&self) -> u64 {
        u64::from(self.arrays.max_term_freq)
    }

    /// Appends them at the end, in order. Copies each once; the first call in a block sums the
    /// frequencies of less than a block.
    fn append_positions_with_offset(&mut self, offset: u32, output: &mut Vec<u32>)
        requires valid { IsPostings self.old }
        requires here { head_document (postings_left self.old) < TERMINATED }
        requires sums { All (λ p. p + offset ≤ 4294967295) (head_positions (postings_left self.old)) }
        requires room { vec_len output.old + (postings_limits self.old).room ≤ vec_capacity output.old }
        ensures end { output.new.items ≡ output.old.items ++ shifted offset (head_positions (postings_left self.old)) }
        ensures members { HasAdded (shifted offset (head_positions (postings_left self.old))) output.old.items output.new.items }
        ensures alone { output.old.items ≡ [] → output.new.items ≡ shifted offset (head_positions (postings_left self.old)) }
        ensures longer { vec_len output.new ≤ vec_len output.old + (postings_limits self.old).room }
        ensures capacity { vec_capacity output.old ≤ vec_capacity output.new }
        ensures entries { postings_left self.new ≡ postings_left self.old }
        ensures limits { postings_limits self.new ≡ postings_limits self.old }
        ensures kept { (s : _) → ReadsAs s self.old → ReadsAs s self.new }
        ensures stays { LooksAs self.old self.new }
        ensures valid { IsPostings self.new }
    {
        let positions = self.positions_here();
        // the positions before this one are appended
        for position in positions {
            output.push(*position + offset).unwrap();
        }
    }

    /// The first call in a block sums the frequencies of less than a block.
    fn find_positions(&mut self) {
        self.positions_here();
    }

    /// None where the field keeps no positions, or none were asked for.
    fn lent_positions(&self) -> Option<&[u32]> {
        let arrays = self.arrays;
        if self.mark != self.cursor || arrays.positions.is_empty() {
            return None;
        }
        let end = self.mark_start + arrays.frequencies.at(self.cursor) as usize;
        Some(&arrays.positions[self.mark_start..end])
    }

    ghost ordered = { λ s h. ArePositions-postings s h };
}

// A frequency as it is read.
fn frequency_read(reading: FreqReadingOption, frequency: u32) -> u32
    ensures { result ≡ frequency_read reading frequency }
{
    match reading {
        FreqReadingOption::ReadFreq => frequency,
        FreqReadingOption::NoFreq | FreqReadingOption::SkipFreq => 1,
    }
}
