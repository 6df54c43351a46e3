//! What was read and found, and how long it took, as it is told on standard error.

use birch_index::Index;
use std::io;
use std::time::{CpuClock, Duration};

/// Measures the time of the processor.
#[derive(Clone, Copy)]
pub struct Stopwatch {
    start: Duration,
}

impl Stopwatch {
    /// Starts now.
    pub fn start(rt: &HostRuntime) -> io::Result<Stopwatch> {
        Ok(Stopwatch {
            start: rt.process_cpu_time()?,
        })
    }

    /// How long it has run.
    pub fn elapsed(&self, rt: &HostRuntime) -> io::Result<Duration> {
        Ok(rt.process_cpu_time()?.saturating_sub(self.start))
    }
}

/// Tells what was read.
pub fn tell_read(rt: &HostRuntime, index: &Index, watch: Stopwatch) -> io::Result<()> {
    let files = index.files.len();
    let bytes = index.tally.bytes;
    let documents = index.tally.documents;
    let words = index.tally.words;
    let took = watch.elapsed(rt)?.as_millis();
    eprintln!(rt; "birch: {files} files of {bytes} bytes: {documents} documents of {words} words")?;
    match index.kept() {
        Some(kept) => {
            let (segments, read) = (kept.count(), kept.read());
            eprintln!(rt;
                "birch: by an index of {segments} segments, for which {read} files were read, in {took} ms of the processor"
            )
        }
        None => {
            let segments = index.searcher.segment_readers().len();
            eprintln!(rt; "birch: read into {segments} segments in {took} ms of the processor")
        }
    }
}

/// Tells what was found, of so many documents that match.
pub fn tell_found(
    rt: &HostRuntime,
    listed: usize,
    matching: usize,
    took: Duration,
) -> io::Result<()> {
    let took = took.as_micros();
    eprintln!(rt;
        "birch: the best {listed} of {matching} that match, in {took} us of the processor"
    )
}

/// Tells how many of the documents that match were scored.
pub fn tell_scored(rt: &HostRuntime, matching: usize, scored: u64) -> io::Result<()> {
    let passed = (matching as u64).saturating_sub(scored);
    eprintln!(rt; "birch: scored {scored} of these, passed over {passed}")
}
