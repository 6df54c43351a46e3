//! A boxed cursor is a cursor.

ghost use Rattle.std.specs.Prelude.{◌≡◌};

use crate::alive_bitset::AliveBitSet;
use crate::docset::{DocSet, SeekDangerResult};
use crate::numbers::{COLLECT_BLOCK_BUFFER_LEN, DocId};

impl<T: DocSet> DocSet for Box<T> {
    ghost entries = { λ b. T.entries b.value };

    ghost limits = { λ b. T.limits b.value };

    ghost keeps = { λ b c. T.keeps b.value c.value };

    ghost placed = { λ b. T.placed b.value };

    ghost valid = { λ b. T.valid b.value };

    fn doc(&self) -> DocId {
        self.as_ref().doc()
    }

    fn advance(&mut self) -> DocId {
        self.as_mut().advance()
    }

    fn seek(&mut self, target: DocId) -> DocId {
        self.as_mut().seek(target)
    }

    fn seek_danger(&mut self, target: DocId) -> SeekDangerResult {
        self.as_mut().seek_danger(target)
    }

    fn fill_buffer(&mut self, buffer: &mut [DocId; COLLECT_BLOCK_BUFFER_LEN]) -> usize {
        self.as_mut().fill_buffer(buffer)
    }

    fn fill_buffer_below(
        &mut self,
        bound: DocId,
        buffer: &mut [DocId; COLLECT_BLOCK_BUFFER_LEN],
    ) -> usize {
        self.as_mut().fill_buffer_below(bound, buffer)
    }

    fn size_hint(&self) -> u32 {
        self.as_ref().size_hint()
    }

    fn cost(&self) -> u64 {
        self.as_ref().cost()
    }

    fn count(&mut self, alive: &AliveBitSet) -> u32 {
        self.as_mut().count(alive)
    }

    fn count_including_deleted(&mut self) -> u32 {
        self.as_mut().count_including_deleted()
    }

    ghost ascending = { λ b h. T.ascending b.value h };
}
