//! A writer that tells all.

ghost use Rattle.std.specs.Prelude.{◌≡◌, ◌≢◌, ◌≤◌, ◌↔◌, [], IfOk, IsTrue, length};
ghost use Rattle.trace_values.specs.Sending.{Took, Holds, Settles, accepted_by, send_faults, settle_faults};
ghost use Rattle.trace_samples.specs.Telling.{all_told, new_teller, Follows, FollowsSettling, AnswersFault};
ghost use Rattle.trace_samples.specs.Telling.{manner_spent};
ghost use Rattle.trace_samples.specs.Manners.{next_fault};

use crate::manner::{Fault, Manner, ROOM};
use std::io;
use std::io::ErrorKind;
use std::marker::Model;
use trace_values::leb128::{Faults, TraceWrite};

/// A writer over a fixed array. It tells the bytes that it accepted, its faults, and which bytes it has not handed on
/// yet; it takes no memory, and fails as its manner says.
#[derive(Drop)]
pub struct Told {
    buffer: [u8; ROOM],
    length: usize,
    faults: Faults,
    handed: usize,
    manner: Manner,
}

impl Model for Told {
    ghost use Rattle.std.specs.Prelude.{take, drop, ◌≤◌};
    ghost use Rattle.trace_samples.specs.Telling.{Teller};
    ghost use Rattle.trace_samples.specs.Manners.{room};

    ghost Value = { Teller };

    ghost view = { λ t. let bytes = take t.length t.buffer in
        record { bytes = bytes; faults = t.faults; waiting = drop t.handed bytes; manner = t.manner } };

    ghost invariant = { λ t. (t.handed ≤ t.length) × (t.length ≤ room) };
}

impl TraceWrite for Told {
    ghost told = { all_told };

    /// Accepts of the piece what the manner allows. Where that is nothing, it fails by the manner, and tells the
    /// fault.
    fn send(&mut self, piece: &[u8]) -> io::Result<usize>
        ensures within { IfOk result (λ n. n ≤ length piece.now) }
        ensures took { Took (all_told self.old) (all_told self.new) (accepted_by result piece.now)
            (send_faults result piece.now) }
        ensures holds { Holds (all_told self.old) (all_told self.new)
            (accepted_by result piece.now) }
        ensures follows { Follows self.old piece.now result self.new }
    {
        if piece.is_empty() {
            return Ok(0);
        }
        let room = self.manner.end().saturating_sub(self.length);
        let count = piece.len().min(self.manner.most.min(room));
        if count == 0 {
            return self.fail(piece);
        }
        self.buffer[self.length..self.length + count].copy_from_slice(&piece[..count]);
        self.length += count;
        Ok(count)
    }

    /// Notes that all bytes were handed on, or fails by the manner, and tells the fault.
    fn settle(&mut self) -> io::Result<()>
        ensures took { Took (all_told self.old) (all_told self.new) [] (settle_faults result) }
        ensures settles { Settles (all_told self.old) (all_told self.new) result }
        ensures follows { FollowsSettling self.old.manner.settling result }
        ensures manner { self.new.manner ≡ self.old.manner }
    {
        if let Some(fault) = self.manner.settling {
            self.faults.add(fault);
            return Err(io::Error::from(fault));
        }
        self.handed = self.length;
        Ok(())
    }
}

impl Told {
    /// A writer that has accepted nothing. It is settled.
    pub fn new(manner: Manner) -> Told
        ensures { result ≡ new_teller manner }
    {
        Told {
            buffer: [0; ROOM],
            length: 0,
            faults: Faults::NoFault,
            handed: 0,
            manner,
        }
    }

    /// The bytes that it accepted.
    pub fn bytes(&self) -> &[u8]
        ensures { result.now ≡ self.now.bytes }
    {
        &self.buffer[..self.length]
    }

    /// Its faults.
    pub fn faults(&self) -> Faults
        ensures { result ≡ self.now.faults }
    {
        self.faults
    }

    /// Whether all bytes that it accepted were handed on.
    pub fn is_settled(&self) -> bool
        ensures { IsTrue result ↔ (self.now.waiting ≡ []) }
    {
        self.handed == self.length
    }

    // Takes nothing of a piece that is not empty, as the manner says, and tells the fault.
    fn fail(&mut self, piece: &[u8]) -> io::Result<usize>
        requires { length piece.now ≢ 0 }
        ensures took { Took (all_told self.old) (all_told self.new) (accepted_by result piece.now)
            (send_faults result piece.now) }
        ensures fails { AnswersFault (next_fault self.old.manner.failing) result }
        ensures same { self.new
            ≡ record self.old { faults = self.new.faults; manner = manner_spent self.old.manner } }
    {
        let fault = self.manner.failing.next_fault();
        self.manner.failing = self.manner.failing.spent();
        match fault {
            Fault::Zero => {
                self.faults.add(ErrorKind::WriteZero);
                Ok(0)
            }
            Fault::Error(kind) => {
                self.faults.add(kind);
                Err(io::Error::from(kind))
            }
        }
    }
}
