//! Which blocks there are.

use crate::asked_wanted::WantedLists;
use crate::error_texts::ErrorTexts;
use crate::given_deletions::GivenDeletions;
use crate::given_manifest::GivenManifest;
use crate::given_places::{GivenPlaces, PlacedBytes};
use crate::given_row::GivenRow;
use crate::given_rows::GivenRows;
use crate::given_segment::GivenSegment;
use crate::given_term::{GivenBytes, GivenTerm};
use crate::merged::Merged;
use crate::spelled::{keeps_positions, read_bytes, write_read};
use cases::{
    Asker, Block, Done, Fault, Listing, Memory, Player, Report, end_refusals, play_asked, word,
};
use qm_schema::{Field, Term};
use qm_store::read_row;
use std::alloc::Global;

/// Plays blocks of rows, of terms, of lists of these, of bytes, of places, and of segments that are stored or merged.
#[derive(Drop)]
pub struct Store<'r> {
    /// where files can be made
    pub rt: &'r HostRuntime,
}

impl<'r> Player for Store<'r> {
    fn play(&mut self, alloc: Global, block: Block<'_>, report: &mut Report) -> Done {
        match word(block.words, 0) {
            "row" => {
                let mut row = GivenRow::make(alloc, block.words)?;
                play_asked(alloc, &mut row, block.rows, report)
            }
            "read" => {
                let has_positions = keeps_positions(word(block.words, 1))?;
                play_asked(alloc, &mut ReadRows { has_positions }, block.rows, report)
            }
            "term" => {
                let mut term = GivenTerm::make(alloc, block.words)?;
                play_asked(alloc, &mut term, block.rows, report)
            }
            "begin" => {
                let mut bytes = GivenBytes::make(alloc, block.words)?;
                play_asked(alloc, &mut bytes, block.rows, report)
            }
            "stored" | "filed" => {
                let mut segment = GivenSegment::make(alloc, self.rt, block.words)?;
                play_asked(alloc, &mut segment, block.rows, report)
            }
            "deletions" => {
                let mut deletions = GivenDeletions::make(alloc, block.words)?;
                play_asked(alloc, &mut deletions, block.rows, report)
            }
            "placed" => {
                let mut bytes = PlacedBytes::make(alloc, self.rt, block.words)?;
                play_asked(alloc, &mut bytes, block.rows, report)
            }
            "places" => {
                let mut places = GivenPlaces::make(alloc, self.rt, block.words)?;
                play_asked(alloc, &mut places, block.rows, report)
            }
            "manifest" => {
                let mut manifest = GivenManifest::make(alloc, block.words)?;
                play_asked(alloc, &mut manifest, block.rows, report)
            }
            "written" => {
                let mut rows = GivenRows::make(alloc, block.words)?;
                play_asked(alloc, &mut rows, block.rows, report)
            }
            "wanted" => play_asked(alloc, &mut WantedLists, block.rows, report),
            "errors" => play_asked(alloc, &mut ErrorTexts, block.rows, report),
            "merge" => play_asked(alloc, &mut Merged::new(alloc), block.rows, report),
            _ => Err(Fault::NotUnderstood),
        }
    }
}

/// Rows of bytes, in a field that keeps positions or in another: each is answered with the row that they are.
#[derive(Drop)]
struct ReadRows {
    has_positions: bool,
}

impl Asker for ReadRows {
    fn ask(&mut self, alloc: Global, call: &str, memory: Memory, text: &mut Listing) -> Done {
        let bytes = read_bytes(alloc, call)?;
        let term = Term::from_field_text(alloc, Field::from_field_id(0), "")?;
        memory.begin(alloc);
        let read = read_row(alloc, term, self.has_positions, &bytes);
        end_refusals(alloc);
        write_read(read, text)
    }
}
