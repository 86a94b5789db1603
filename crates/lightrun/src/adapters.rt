//! Standard input, standard output and the system's clock as the outside of a run.
//!
//! This is the trusted edge: what these hold is told to no contract.
ghost use Rattle.std.specs.Prelude.{◌≡◌, false};

use lw_base::{Clock, Failed, Sink, Source, Tick};
use std::io::{Read, Write};
use std::time::Instant;

/// Bytes from a reader. It counts its failures, and tells nothing of its bytes.
#[derive(Drop)]
pub struct StdSource<R> {
    from: R,
    ended: bool,
    faults: u64,
}

impl<R: Read> StdSource<R> {
    /// With no failure yet.
    pub fn new(from: R) -> Self
        ensures { result.ended ≡ false }
    {
        StdSource {
            from,
            ended: false,
            faults: 0,
        }
    }
}

impl<R: Read> Source for StdSource<R> {
    ghost use Rattle.std.specs.Prelude.{None};

    ghost left = { λ _. None };

    ghost ended = { λ s. s.ended };

    ghost faults = { λ s. s.faults };

    fn read(&mut self, into: &mut [u8]) -> Result<usize, Failed> {
        match self.from.read(into) {
            Ok(count) => {
                self.ended = count == 0;
                Ok(count)
            }
            Err(_) => {
                self.ended = true;
                self.faults = self.faults.saturating_add(1);
                Err(Failed)
            }
        }
    }
}

/// Bytes to a writer, flushed with each call. It counts its failures, and tells nothing of its bytes.
#[derive(Drop)]
pub struct StdSink<W> {
    to: W,
    faults: u64,
}

impl<W: Write> StdSink<W> {
    /// With no failure yet.
    pub fn new(to: W) -> Self {
        StdSink { to, faults: 0 }
    }
}

impl<W: Write> Sink for StdSink<W> {
    ghost use Rattle.std.specs.Prelude.{None};

    ghost holds = { λ _. None };

    ghost faults = { λ s. s.faults };

    fn write(&mut self, piece: &[u8]) -> Result<usize, Failed> {
        match self.to.write(piece) {
            Ok(count) => {
                if count > 0 && self.to.flush().is_ok() {
                    return Ok(count);
                }
            }
            Err(_) => {}
        }
        self.faults = self.faults.saturating_add(1);
        Err(Failed)
    }
}

/// Nanoseconds since the clock was made. Where the system's clock fails it gives its last reading again.
#[derive(Drop)]
pub struct TickClock<R> {
    rt: R,
    start: Option<Instant>,
    last: Tick,
}

impl<R: std::time::Clock> TickClock<R> {
    /// A clock that begins at 0 now.
    pub fn new(rt: R) -> Self {
        let start = Instant::now(&rt).ok();
        TickClock { rt, start, last: 0 }
    }
}

impl<R: std::time::Clock> Clock for TickClock<R> {
    ghost use Rattle.std.specs.Prelude.{None};

    ghost readings = { λ _. None };

    fn now(&mut self) -> Tick {
        if let Some(start) = &self.start {
            if let Ok(since) = start.elapsed(&self.rt) {
                self.last = u64::try_from(since.as_nanos()).unwrap_or(u64::MAX);
            }
        }
        self.last
    }
}
