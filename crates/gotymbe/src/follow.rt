//! A file that is read while it grows.

ghost use Rattle.std.specs.Io.{ReadsAtMost};

use gotymbe_plan::following::{Change, Seen, has_rested, is_anew, what_became};
use std::fs::{File, Metadata};
use std::io::{ErrorKind, Read};
use std::os::unix::fs::MetadataExt;
use std::rt::{Clock, Files};
use std::time::Duration;
use std::{fs, io, thread};

// So many milliseconds pass before a file is looked at again.
const REST_MS: u64 = 100;

/// Why following ends.
#[derive(Clone, Copy, PartialEq, Eq)]
pub(crate) enum End {
    /// The file rested so long.
    Idle,
    /// It is read anew after this.
    Anew(Change),
}

/// A file that is read while it grows: a read at its end waits for more bytes.
#[derive(Drop)]
pub(crate) struct Following<'r, 'n, R: Files<File = File> + Clock> {
    rt: &'r R,
    name: &'n str,
    file: File,
    known: Seen,
    read: u64,
    idle: Option<u64>,
    pub(crate) end: End,
    pub(crate) error: Option<ErrorKind>,
}

impl<'r, 'n, R: Files<File = File> + Clock> Following<'r, 'n, R> {
    pub(crate) fn open(
        rt: &'r R,
        name: &'n str,
        idle: Option<u64>,
    ) -> io::Result<Following<'r, 'n, R>> {
        let file = File::open(rt, name)?;
        let known = seen(&file.metadata()?);
        Ok(Following {
            rt,
            name,
            file,
            known,
            read: 0,
            idle,
            end: End::Idle,
            error: None,
        })
    }

    // What became of the file.
    fn change(&self) -> Change {
        let now = match fs::metadata(self.rt, self.name) {
            Ok(found) => Some(seen(&found)),
            Err(_) => None,
        };
        what_became(self.known, self.read, now)
    }

    // Reads once more bytes are there.
    fn read_more(&mut self, buf: &mut [u8]) -> io::Result<usize>
        ensures { ReadsAtMost result buf.new }
    {
        let mut resting_ms = 0u64;
        'rests: for _ in 0..u64::MAX {
            let count = self.file.read(buf)?;
            if count > 0 {
                self.read = self.read.saturating_add(count as u64);
                return Ok(count);
            }
            let change = self.change();
            if is_anew(change) {
                self.end = End::Anew(change);
                return Ok(0);
            }
            if has_rested(resting_ms, self.idle) {
                self.end = End::Idle;
                return Ok(0);
            }
            thread::sleep(self.rt, Duration::from_millis(REST_MS));
            resting_ms = resting_ms.saturating_add(REST_MS);
        }
        Ok(0)
    }
}

fn seen(found: &Metadata) -> Seen {
    Seen {
        device: found.dev(),
        node: found.ino(),
        length: found.len(),
    }
}

impl<R: Files<File = File> + Clock> Read for Following<'_, '_, R> {
    fn read(&mut self, buf: &mut [u8]) -> io::Result<usize> {
        if buf.is_empty() {
            return Ok(0);
        }
        match self.read_more(buf) {
            Ok(count) => Ok(count),
            Err(error) => {
                self.error = Some(error.kind());
                Err(error)
            }
        }
    }
}
