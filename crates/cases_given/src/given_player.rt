//! What plays blocks on what the rows of `given` make.

use crate::given::read_world;
use crate::world::World;
use cases::{Block, Done, Fault, Player, Report, word};
use std::alloc::Global;

/// Blocks that stand on what is given.
pub trait GivenBlocks: Drop {
    /// Plays one that is not `given`.
    fn play_block(
        &self,
        alloc: Global,
        world: &World,
        block: Block<'_>,
        report: &mut Report,
    ) -> Done;
}

/// Plays blocks `given`, each of which makes anew what the blocks behind it stand on, and these.
#[derive(Drop)]
pub struct GivenPlayer<B: GivenBlocks> {
    blocks: B,
    world: World,
}

impl<B: GivenBlocks> GivenPlayer<B> {
    /// Nothing is given yet: one field, and no segment.
    pub fn new(alloc: Global, blocks: B) -> Result<GivenPlayer<B>, Fault> {
        let mut report = Report::new(alloc);
        match read_world(alloc, &[], &mut report) {
            Ok(world) => Ok(GivenPlayer { blocks, world }),
            Err(fault) => Err(fault),
        }
    }
}

impl<B: GivenBlocks> Player for GivenPlayer<B> {
    fn play(&mut self, alloc: Global, block: Block<'_>, report: &mut Report) -> Done {
        if word(block.words, 0) == "given" {
            self.world = read_world(alloc, block.rows, report)?;
            return Ok(());
        }
        self.blocks.play_block(alloc, &self.world, block, report)
    }
}
