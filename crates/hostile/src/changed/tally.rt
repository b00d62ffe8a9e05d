//! What is counted of the changed traces.

use std::fmt;

/// How a trace reads.
#[derive(Clone, Copy)]
pub enum End {
    /// It does not begin with a header.
    Headless,
    /// To its end.
    Whole,
    /// Up to bytes that are no frame.
    Stopped,
    /// Up to a schema under a wire id that has another.
    Conflict,
}

/// What one trace shows.
#[derive(Clone, Copy)]
pub struct Shown {
    pub end: End,
    /// How many frames a reader of owned values gives, and how many of them are events.
    pub frames: usize,
    pub events: usize,
    /// Whether all readers agree.
    pub right: bool,
}

/// What many traces show.
#[derive(Clone, Copy)]
pub struct Tally {
    traces: usize,
    ends: [usize; 4],
    frames: usize,
    events: usize,
    differ: usize,
}

impl Tally {
    /// Of no trace.
    pub fn new() -> Tally {
        Tally {
            traces: 0,
            ends: [0; 4],
            frames: 0,
            events: 0,
            differ: 0,
        }
    }

    /// Counts one more.
    pub fn add(&mut self, shown: Shown) {
        self.traces = self.traces.saturating_add(1);
        let end = match shown.end {
            End::Headless => 0,
            End::Whole => 1,
            End::Stopped => 2,
            End::Conflict => 3usize,
        };
        self.ends[end] = self.ends[end].saturating_add(1);
        self.frames = self.frames.saturating_add(shown.frames);
        self.events = self.events.saturating_add(shown.events);
        if !shown.right {
            self.differ = self.differ.saturating_add(1);
        }
    }

    /// How many traces were counted.
    pub fn traces(&self) -> usize {
        self.traces
    }

    /// Whether the readers agree on all of them.
    pub fn is_right(&self) -> bool {
        self.differ == 0
    }
}

impl fmt::Display for Tally {
    fn fmt<W: fmt::Write>(&self, f: &mut fmt::Formatter<W>) -> fmt::Result {
        let [headless, whole, stopped, conflicts] = self.ends;
        write!(
            f,
            "{} traces: {headless} headless, {whole} whole, ",
            self.traces
        )?;
        write!(f, "{stopped} stopped, {conflicts} conflicts; ",)?;
        write!(
            f,
            "{} frames, {} events; {} differ",
            self.frames, self.events, self.differ
        )
    }
}
