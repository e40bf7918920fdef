// The line of progress on a terminal.
use std::io::{IsTerminal, Write};
use std::time::{Clock, Duration, Instant};
use stream_checks::Watch;

/// How many milliseconds nothing is shown.
const SILENT_FOR: u64 = 1000;

/// How many milliseconds a count stays before the next one is shown.
const SHOWN_FOR: u64 = 200;

/// A line that counts packets, as `vp8list: 1200 of 9000 packets`. It appears if the work takes longer
/// than a second, and is erased after the last packet or where decoding ends early. Nothing is shown
/// if the writer is not a terminal, or if the clock cannot be read.
#[derive(Drop)]
pub struct ProgressLine<'a, R: Clock, E: Write> {
    clock: &'a R,
    terminal: E,
    // When the count was shown last, or the start; `None` if nothing is shown.
    since: Option<Instant>,
    is_shown: bool,
    done: usize,
}

impl<'a, R: Clock, E: Write + IsTerminal> ProgressLine<'a, R, E> {
    /// Starts with no packet done.
    pub fn new(clock: &'a R, terminal: E) -> ProgressLine<'a, R, E> {
        let since = if terminal.is_terminal() {
            Instant::now(clock).ok()
        } else {
            None
        };
        ProgressLine {
            clock,
            terminal,
            since,
            is_shown: false,
            done: 0,
        }
    }
}

impl<'a, R: Clock, E: Write> ProgressLine<'a, R, E> {
    /// The time, if the next count is due.
    fn due(&self) -> Option<Instant> {
        let since = self.since?;
        let now = Instant::now(self.clock).ok()?;
        let stays = if self.is_shown { SHOWN_FOR } else { SILENT_FOR };
        if now.duration_since(since) < Duration::from_millis(stays) {
            None
        } else {
            Some(now)
        }
    }
}

impl<'a, R: Clock, E: Write> Watch for ProgressLine<'a, R, E> {
    fn packet_done(&mut self, count: usize) {
        self.done = self.done.saturating_add(1);
        if self.done >= count {
            self.end();
        } else if let Some(now) = self.due() {
            self.since = Some(now);
            self.is_shown = true;
            let done = self.done;
            let _ = write!(self.terminal, "\rvp8list: {done} of {count} packets\x1b[K");
        }
    }

    fn end(&mut self) {
        if self.is_shown {
            self.is_shown = false;
            let _ = write!(self.terminal, "\r\x1b[K");
        }
    }
}
