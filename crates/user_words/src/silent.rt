//! A writer that tells nothing of what it takes.

ghost use Rattle.std.specs.Prelude.{◌≡◌, ◌+◌, ◌-◌, ◌^◌, min, length, IfOk, IsOk};
ghost use Rattle.user_words.specs.Silence.{nothing_told};

use dial9_trace_format::leb128::TraceWrite;
use std::io;

/// Counts the bytes that it is given, and drops them.
#[derive(Drop)]
pub struct Counter {
    /// How many bytes it was given; `u64::MAX` where they were more.
    pub bytes: u64,
}

impl TraceWrite for Counter {
    ghost told = { λ _. nothing_told };

    fn send(&mut self, piece: &[u8]) -> io::Result<usize>
        ensures all { IfOk result (λ n. n ≡ length piece.now) }
        ensures counted { self.new.bytes ≡ min (self.old.bytes + length piece.now) (2 ^ 64 - 1) }
    {
        self.bytes = self.bytes.saturating_add(piece.len() as u64);
        Ok(piece.len())
    }

    fn settle(&mut self) -> io::Result<()>
        ensures ok { IsOk result }
        ensures same { self.new ≡ self.old }
    {
        Ok(())
    }
}
