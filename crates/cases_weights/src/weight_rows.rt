//! Rows on a weight.

use crate::own_calls::ask_kind_of_weight;
use cases::{Asker, Done, Listing, Memory};
use cases_given::{World, ask_weight, read_number};
use qm_weight::AnyWeight;
use std::alloc::Global;

/// Rows on a weight.
#[derive(Drop)]
pub struct WeightAsker<'a> {
    pub world: &'a World,
    pub weight: &'a AnyWeight,
    /// the segment that is asked
    pub segment: u32,
}

impl<'a> Asker for WeightAsker<'a> {
    fn ask(&mut self, alloc: Global, call: &str, memory: Memory, text: &mut Listing) -> Done {
        if let Some(number) = call.strip_prefix("segment ") {
            self.segment = read_number(number)?;
            return Ok(());
        }
        let segment = self.world.segment(self.segment)?;
        match call.strip_prefix("own ") {
            Some(call) => ask_kind_of_weight(alloc, segment, self.weight, call, memory, text),
            None => ask_weight(alloc, segment, self.weight, call, memory, text),
        }
    }
}
