//! An index that is saved in a folder, and opened there.

use crate::given::{BLOCK_LEN, BODY, KEPT, norms, schema};
use crate::steps::Step;
use crate::stopped::Stopped;
use qm_folder::SystemFolder;
use qm_index::Index;
use qm_schema::Field;
use std::alloc::Global;
use std::fs;

/// Makes an index of a text, and saves it in a folder.
pub fn save(rt: &HostRuntime, text: &str, folder: &str) -> Result<(), Stopped> {
    let mut index = build(rt, text)?;
    save_in(rt, &mut index, folder)
}

fn build(rt: &HostRuntime, text: &str) -> Result<Index, Stopped> {
    let text = fs::read_to_string(rt, text)?;
    let step = Step::begin(rt)?;
    let index = index_of(rt.alloc(), text.as_str())?;
    step.end(rt, "index")?;
    Ok(index)
}

fn save_in(rt: &HostRuntime, index: &mut Index, folder: &str) -> Result<(), Stopped> {
    let step = Step::begin(rt)?;
    let mut folder = SystemFolder::open(rt, folder)?;
    index.save(rt.alloc(), &mut folder, 1)?;
    Ok(step.end(rt, "save")?)
}

// The index of a text, of which each line is a document, in one segment that was ended.
fn index_of(alloc: Global, text: &str) -> Result<Index, Stopped> {
    let mut index = Index::new(alloc, schema(alloc, KEPT)?, 1000, norms(), BLOCK_LEN)?;
    // the lines before it are added
    for line in text.lines() {
        add_line(alloc, &mut index, line)?;
    }
    index.end_segment(alloc)?;
    Ok(index)
}

fn add_line(alloc: Global, index: &mut Index, line: &str) -> Result<(), Stopped> {
    let text = String::from_str(alloc, line)?;
    let mut texts = Vec::with_capacity(alloc, 1)?;
    texts.push((Field::from_field_id(BODY), text))?;
    Ok(index.add_document(alloc, texts)?)
}

/// Opens the index of a folder.
pub fn open(rt: &HostRuntime, folder: &str) -> Result<(), Stopped> {
    let step = Step::begin(rt)?;
    let index = read(rt, folder)?;
    step.end(rt, "open")?;
    Ok(println!(rt; "documents {}", index.document_count())?)
}

fn read(rt: &HostRuntime, folder: &str) -> Result<Index, Stopped> {
    let mut folder = SystemFolder::open(rt, folder)?;
    match Index::open(rt.alloc(), &mut folder)? {
        Some(index) => Ok(index),
        None => Err(Stopped::Missing),
    }
}
