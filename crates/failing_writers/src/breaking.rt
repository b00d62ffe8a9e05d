//! A writer that takes bytes up to a place, and then fails.

ghost use Rattle.std.specs.Prelude.{◌≤◌};

use std::alloc::Global;
use std::io;
use std::io::{ErrorKind, Write};

/// What a write answers where no bytes are taken.
#[derive(Clone, Copy, PartialEq, Eq, Debug)]
pub enum Fault {
    /// `Ok(0)`.
    Zero,
    /// An error of this kind.
    Error(ErrorKind),
}

/// How a writer takes bytes and fails.
#[derive(Clone, Copy, PartialEq, Eq, Debug)]
pub struct Manner {
    /// The most bytes that a write takes.
    pub most: usize,
    /// After so many bytes it fails.
    pub place: usize,
    pub fault: Fault,
    /// Whether it fails once alone, and takes bytes again then.
    pub once: bool,
    /// By what error it fails to flush, if it does.
    pub flushing: Option<ErrorKind>,
}

/// A writer that keeps what it takes.
#[derive(Drop)]
pub struct Breaking {
    pub bytes: Vec<u8>,
    /// How often it was asked to flush.
    pub flushes: u64,
    manner: Manner,
    spent: bool,
}

impl Breaking {
    /// A writer that has taken nothing.
    pub fn new(alloc: Global, manner: Manner) -> Breaking {
        Breaking {
            bytes: Vec::new(alloc),
            flushes: 0,
            manner,
            spent: false,
        }
    }

    /// How many bytes it takes of a piece of this length.
    fn room_for(&self, length: usize) -> usize
        ensures { result ≤ length }
    {
        if self.spent && self.manner.once {
            return length.min(self.manner.most);
        }
        let left = self.manner.place.saturating_sub(self.bytes.len());
        length.min(self.manner.most).min(left)
    }
}

impl Write for Breaking {
    fn write(&mut self, piece: &[u8]) -> io::Result<usize> {
        if piece.is_empty() {
            return Ok(0);
        }
        let count = self.room_for(piece.len());
        if count > 0 {
            self.bytes.extend_from_slice(&piece[..count])?;
            return Ok(count);
        }
        self.spent = true;
        match self.manner.fault {
            Fault::Zero => Ok(0),
            Fault::Error(kind) => Err(io::Error::from(kind)),
        }
    }

    fn flush(&mut self) -> io::Result<()> {
        self.flushes = self.flushes.saturating_add(1);
        match self.manner.flushing {
            Some(kind) => Err(io::Error::from(kind)),
            None => Ok(()),
        }
    }
}
