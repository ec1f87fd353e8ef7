//! How far a command is, as a line on standard error.
use host_ports::{Meter, Work};
use std::io::{IsTerminal, Stderr};

/// A meter whose line, as `worm: 1048576 of 33554432 bytes read`, is written over in place. It is gone once all is done,
/// and where the command ends before that, so that the command's own lines stand alone.
pub struct Terminal {
    /// Where the line goes, if anywhere.
    shown_on: Option<Stderr>,
    /// Which of at most a thousand parts the line tells of: 0 where there is no line.
    part: u64,
}

impl Terminal {
    /// On standard error, where that is a terminal, and else nowhere.
    pub fn new(standard_error: Stderr) -> Terminal {
        let is_terminal = standard_error.is_terminal();
        Terminal {
            shown_on: is_terminal.then_some(standard_error),
            part: 0,
        }
    }

    /// Nowhere.
    pub fn off() -> Terminal {
        Terminal {
            shown_on: None,
            part: 0,
        }
    }
}

impl Meter for Terminal {
    fn show(&mut self, work: Work, done: u64, of: u64) {
        let Some(shown_on) = self.shown_on else {
            return;
        };
        if of <= done {
            clear(shown_on, self.part);
            self.part = 0;
            return;
        }
        let part = done / (of / 1_000 + 1);
        if part == self.part {
            return;
        }
        self.part = part;
        let what = what_is_done(work);
        // Where it cannot be shown, the command goes on all the same.
        let _ = eprint!(shown_on; "\r\x1b[Kworm: {done} of {of} {what}");
    }
}

impl Drop for Terminal {
    fn drop(self) {
        let Terminal { shown_on, part } = self;
        if let Some(shown_on) = shown_on {
            clear(shown_on, part);
        }
    }
}

/// What is counted, and how it is done.
fn what_is_done(work: Work) -> &'static str {
    match work {
        Work::Reading => "bytes read",
        Work::Checking => "checks of slots made",
        Work::Copying => "documents copied",
    }
}

/// Clears the line, where one tells of this part.
fn clear(shown_on: Stderr, part: u64) {
    if part != 0 {
        let _ = eprint!(shown_on; "\r\x1b[K");
    }
}
