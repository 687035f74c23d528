//! How far a long run is, reported on standard error.

use script_steps::Watch;
use std::io::Write;
use std::time::Clock;

/// How long a run may take before its progress is reported, and how often that is then repeated; in milliseconds.
const PATIENCE: u64 = 2000;

/// How many lines are taken between two looks at the clock.
const LINES_BETWEEN: u32 = 64;

/// A source of time: the clock of a runtime, or a substitute.
pub trait Stopwatch {
    /// Milliseconds since a fixed moment; `None` without a clock.
    fn milliseconds(&self) -> Option<u64>;
}

impl<R: Clock> Stopwatch for R {
    fn milliseconds(&self) -> Option<u64> {
        let time = self.monotonic().ok()?;
        u64::try_from(time.as_millis()).ok()
    }
}

/// Reports every two seconds how many lines have been taken.
#[derive(Drop)]
pub(crate) struct ProgressReport<'a, R, E> {
    clock: &'a R,
    errors: &'a mut E,
    // When the run began; `None` if nothing is to be reported.
    began: Option<u64>,
    // When the next report is due.
    next: u64,
}

impl<'a, R: Stopwatch, E: Write> ProgressReport<'a, R, E> {
    /// Nothing is reported if `is_shown` is false or no clock works.
    pub(crate) fn new(clock: &'a R, errors: &'a mut E, is_shown: bool) -> ProgressReport<'a, R, E> {
        let began = if is_shown { clock.milliseconds() } else { None };
        let next = began.unwrap_or(0).saturating_add(PATIENCE);
        ProgressReport {
            clock,
            errors,
            began,
            next,
        }
    }

    /// Reports how far the run is, if a report is due.
    fn look(&mut self, began: u64, lines: u32) {
        let Some(now) = self.clock.milliseconds() else {
            return;
        };
        if now < self.next {
            return;
        }
        let seconds = now.saturating_sub(began) / 1000;
        let _ = writeln!(
            self.errors,
            "vsm-explain: {seconds} seconds so far, {lines} lines"
        );
        self.next = now.saturating_add(PATIENCE);
    }
}

impl<R: Stopwatch, E: Write> Watch for ProgressReport<'_, R, E> {
    fn line(&mut self, lines: u32) {
        if lines % LINES_BETWEEN != 0 {
            return;
        }
        if let Some(began) = self.began {
            self.look(began, lines);
        }
    }
}
