//! What a step of a run took.

use std::io;
use std::time::{CpuClock, Duration};

/// Tells what a step took, of the time of the processor.
#[derive(Clone, Copy)]
pub struct Step {
    start: Duration,
}

impl Step {
    /// A step that begins now.
    pub fn begin(rt: &HostRuntime) -> io::Result<Step> {
        Ok(Step {
            start: rt.process_cpu_time()?,
        })
    }

    /// Tells what it took until now, by its name.
    pub fn end(self, rt: &HostRuntime, name: &str) -> io::Result<()> {
        let end = rt.process_cpu_time()?;
        let took = end.saturating_sub(self.start).as_micros();
        println!(rt; "{name} {took}")
    }
}
