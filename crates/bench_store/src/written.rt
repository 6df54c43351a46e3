//! A segment that is made and written.

use crate::given::segment_of;
use crate::steps::Step;
use crate::stopped::Stopped;
use qm_postings::SegmentReader;
use qm_store::write_segment;
use std::fs;
use std::fs::File;

/// The key of the segment, which no file has but the one that is measured.
pub const KEY: u64 = 1;

/// Makes a segment of a text, and writes it to a file.
pub fn write(rt: &HostRuntime, text: &str, file: &str) -> Result<(), Stopped> {
    let segment = build(rt, text)?;
    write_to(rt, &segment, file)
}

fn build(rt: &HostRuntime, text: &str) -> Result<SegmentReader, Stopped> {
    let text = fs::read_to_string(rt, text)?;
    let step = Step::begin(rt)?;
    let segment = segment_of(rt.alloc(), text.as_str())?;
    step.end(rt, "build")?;
    Ok(segment)
}

fn write_to(rt: &HostRuntime, segment: &SegmentReader, file: &str) -> Result<(), Stopped> {
    let step = Step::begin(rt)?;
    let mut out = File::create(rt, file)?;
    write_segment(rt.alloc(), segment, KEY, &mut out)?;
    out.sync_all()?;
    step.end(rt, "write")?;
    Ok(println!(rt; "terms {}", segment.row_count())?)
}
