//! How a writer takes bytes and fails.

ghost use Rattle.std.specs.Prelude.{◌≡◌};

use std::io::ErrorKind;

/// How many bytes a `Told` writer accepts in all.
pub const ROOM: usize = 1_024;

/// What `send` answers where it accepts nothing.
#[derive(Clone, Copy, PartialEq, Eq, Debug)]
pub enum Fault {
    /// The answer 0.
    Zero,
    /// An error of this kind.
    Error(ErrorKind),
}

/// How often `send` fails at the place of a manner.
#[derive(Clone, Copy, PartialEq, Eq, Debug)]
pub enum Failing {
    /// Not at all.
    Never,
    /// At the first call there; then it accepts bytes again.
    Once(Fault),
    /// At each call there.
    Always(Fault),
}

impl Failing {
    ghost use Rattle.trace_samples.specs.Manners.{next_fault, spent};

    /// What `send` answers next where it accepts nothing: 0 where it never fails by its manner, but its room ends.
    pub fn next_fault(self) -> Fault
        ensures { result ≡ next_fault self }
    {
        match self {
            Failing::Never => Fault::Zero,
            Failing::Once(fault) => fault,
            Failing::Always(fault) => fault,
        }
    }

    /// How it fails after a fault.
    pub fn spent(self) -> Failing
        ensures { result ≡ spent self }
    {
        match self {
            Failing::Once(_) => Failing::Never,
            _ => self,
        }
    }
}

/// How a `Told` writer takes bytes and fails.
#[derive(Clone, Copy, PartialEq, Eq, Debug)]
pub struct Manner {
    /// The most bytes that a call of `send` accepts.
    pub most: usize,
    /// Where `send` fails: after so many bytes.
    pub place: usize,
    /// How `send` fails there.
    pub failing: Failing,
    /// The kind of error by which `settle` fails, if it does.
    pub settling: Option<ErrorKind>,
}

impl Manner {
    ghost use Rattle.trace_samples.specs.Manners.{end_of};

    /// Accepts each piece whole while there is room, and settles.
    pub const SOUND: Manner = Manner {
        most: ROOM,
        place: ROOM,
        failing: Failing::Never,
        settling: None,
    };

    /// After how many bytes no byte is accepted: at the place where `send` fails, or where the room ends.
    pub fn end(&self) -> usize
        ensures { result ≡ end_of self.now }
    {
        match self.failing {
            Failing::Never => ROOM,
            _ => self.place.min(ROOM),
        }
    }
}
