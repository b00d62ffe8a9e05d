//! What is written.

ghost use Rattle.std.specs.Prelude.{◌≡◌, ◌≢◌, IsTrue, codes, false};
ghost use Rattle.gotymbe_plan.specs.declared.output.Standing.TheVariants.{Nothing, Other};

use gotymbe_plan::ending::Ending;
use gotymbe_plan::output::{Standing, Way, can_read_twice, leads_to_open, name_beside, way_of};
use std::fs::{File, OpenOptions};
use std::io::ErrorKind;
use std::os::unix::fs::OpenOptionsExt;
use std::rt::Files;
use std::{fs, io};
use trace_values::leb128::{Plain, TraceWrite, send_all};

/// What standard output is called where it can't be written.
pub(crate) const STANDARD: &str = "standard output";

/// A writer, and the last kind of error that it gave.
#[derive(Drop)]
pub(crate) struct Noted<W: TraceWrite + Drop> {
    pub(crate) inner: W,
    pub(crate) error: Option<ErrorKind>,
}

impl<W: TraceWrite + Drop> TraceWrite for Noted<W> {
    ghost told = { λ n. W.told n.inner };

    fn send(&mut self, piece: &[u8]) -> io::Result<usize> {
        match self.inner.send(piece) {
            Ok(count) => Ok(count),
            Err(error) => {
                self.error = Some(error.kind());
                Err(error)
            }
        }
    }

    fn settle(&mut self) -> io::Result<()> {
        match self.inner.settle() {
            Ok(()) => Ok(()),
            Err(error) => {
                self.error = Some(error.kind());
                Err(error)
            }
        }
    }
}

/// A file that is written, its name, and under which name it lies meanwhile.
#[derive(Drop)]
pub(crate) struct Place {
    name: String,
    beside: String,
    way: Way,
}

/// A file that is written, and is open.
#[derive(Drop)]
pub(crate) struct Written {
    pub(crate) file: File,
    place: Place,
}

/// Begins to write a file; or why that can't be.
pub(crate) fn begin(
    rt: &(impl AllocGlobal + Files<File = File>),
    name: &str,
    force: bool,
) -> Result<Written, Ending> {
    let way = way_of(standing_to_write(rt, name)?, force);
    // (what needs memory comes before the file is made)
    let held = String::from_str(rt.alloc(), name)?;
    let begun = match way {
        Way::Refused => Err(io::Error::from(ErrorKind::AlreadyExists)),
        Way::Into => into_place(rt, name),
        Way::Beside | Way::InPlace => beside(rt, name),
    };
    match begun {
        Ok((file, beside)) => Ok(Written {
            file,
            place: Place {
                name: held,
                beside,
                way,
            },
        }),
        Err(error) => Err(Ending::Unwritten(error.kind())),
    }
}

/// Begins to write a file that is opened for each part of it; or why that can't be.
pub(crate) fn begin_place(
    rt: &(impl AllocGlobal + Files<File = File>),
    name: &str,
    force: bool,
) -> Result<Place, Ending> {
    match begin(rt, name, force) {
        Ok(written) => Ok(written.place),
        Err(ending) => Err(ending),
    }
}

// What stands under the name of a file that is to be written. What is open already, as `/dev/fd/1`, and a link to that,
// as `/dev/stdout`, is written into as a pipe is: it is no file's name.
fn standing_to_write(
    rt: &(impl AllocGlobal + Files<File = File>),
    name: &str,
) -> Result<Standing, Ending> {
    if leads_to_open(name) {
        return Ok(open_standing(standing(rt, name)));
    }
    match fs::read_link(rt, name) {
        Ok(target) if leads_to_open(target.as_str()) => Ok(Standing::Other),
        Err(error) if error.kind() == ErrorKind::OutOfMemory => Err(Ending::OutOfMemory),
        _ => Ok(standing(rt, name)),
    }
}

// What is open already, where this stands under its name.
fn open_standing(found: Standing) -> Standing
    ensures nothing { found ≡ Nothing → result ≡ Nothing }
    ensures open { found ≢ Nothing → result ≡ Other }
{
    match found {
        Standing::Nothing => Standing::Nothing,
        _ => Standing::Other,
    }
}

// What stands under a name. A link that leads nowhere is there too: it is replaced as a file is.
fn standing(rt: &impl Files, name: &str) -> Standing {
    match fs::metadata(rt, name) {
        Ok(found) => {
            if found.is_file() {
                Standing::File
            } else {
                Standing::Other
            }
        }
        Err(_) => match fs::symlink_metadata(rt, name) {
            Ok(_) => Standing::File,
            Err(_) => Standing::Nothing,
        },
    }
}

/// Whether a file of bytes stands under a name, which can be read twice; `-` is standard input.
pub(crate) fn reads_twice(rt: &impl Files, name: &str) -> bool
    ensures { name.now ≡ codes "-" → result ≡ false }
{
    can_read_twice(name, standing(rt, name))
}

fn into_place(
    rt: &(impl AllocGlobal + Files<File = File>),
    name: &str,
) -> io::Result<(File, String)> {
    let mut options = OpenOptions::new();
    let file = options.append(true).open(rt, name)?;
    Ok((file, String::new(rt.alloc())))
}

// Begins to write beside a name: under the first name for that which no file has.
fn beside(rt: &(impl AllocGlobal + Files<File = File>), name: &str) -> io::Result<(File, String)> {
    let mut options = OpenOptions::new();
    options
        .write(true)
        .create_new(true)
        .mode(mode_beside(fs::metadata(rt, name).is_ok()));
    'names: for taken in 0..u64::MAX {
        let beside = name_beside(rt.alloc(), name, taken)?;
        match options.open(rt, beside.as_str()) {
            Ok(file) => return Ok((file, beside)),
            Err(error) => {
                if error.kind() != ErrorKind::AlreadyExists {
                    return Err(error);
                }
            }
        }
    }
    Err(io::Error::from(ErrorKind::AlreadyExists))
}

// With which mode a file is made beside a name: where one stands there, nobody else reads it before it has the mode of
// that one.
fn mode_beside(is_there: bool) -> u32
    ensures there { IsTrue is_there → result ≡ 0o600 }
    ensures new { ¬ IsTrue is_there → result ≡ 0o666 }
{
    if is_there { 0o600 } else { 0o666 }
}

// Gives a file the mode of the one that stands under a name, if one does.
fn keep_mode(rt: &impl Files, name: &str, file: &File) -> io::Result<()> {
    match fs::metadata(rt, name) {
        Ok(found) => file.set_permissions(found.permissions()),
        Err(_) => Ok(()),
    }
}

impl Place {
    /// Appends bytes.
    pub(crate) fn append(&self, rt: &impl Files<File = File>, bytes: &[u8]) -> Result<(), Ending> {
        let mut options = OpenOptions::new();
        let opened = match self.way {
            Way::Into | Way::Refused => options.append(true).open(rt, self.name.as_str()),
            Way::Beside | Way::InPlace => options.append(true).open(rt, self.beside.as_str()),
        };
        match opened {
            Ok(file) => match send_all(&mut Plain(&file), bytes) {
                Ok(()) => Ok(()),
                Err(fault) => Err(Ending::Unwritten(fault.kind)),
            },
            Err(error) => Err(Ending::Unwritten(error.kind())),
        }
    }

    /// Puts what was appended under its name; or the name, and why that can't be.
    pub(crate) fn finish(self, rt: &impl Files<File = File>) -> Result<(), (String, Ending)> {
        let opened = match self.way {
            Way::Beside | Way::InPlace => File::open(rt, self.beside.as_str()),
            Way::Into | Way::Refused => return Ok(()),
        };
        let finished = match opened {
            Ok(file) => self.put_under(rt, &file),
            Err(error) => Err(error),
        };
        match finished {
            Ok(()) => Ok(()),
            Err(error) => Err((self.name, Ending::Unwritten(error.kind()))),
        }
    }

    // Puts a file that was written under its name.
    fn put_under(&self, rt: &impl Files, file: &File) -> io::Result<()> {
        let (name, beside) = (self.name.as_str(), self.beside.as_str());
        match self.way {
            Way::Beside => {
                file.sync_all()?;
                // (what can't be linked stays beside)
                fs::hard_link(rt, beside, name)?;
                fs::remove_file(rt, beside)
            }
            Way::InPlace => {
                keep_mode(rt, name, file)?;
                file.sync_all()?;
                fs::rename(rt, beside, name)
            }
            Way::Into | Way::Refused => Ok(()),
        }
    }

    /// Removes what was written.
    pub(crate) fn give_up(self, rt: &impl Files) {
        match self.way {
            Way::Beside | Way::InPlace => {
                let _ = fs::remove_file(rt, self.beside.as_str());
            }
            Way::Into | Way::Refused => {}
        }
    }
}

impl Written {
    /// Puts what was written under its name.
    pub(crate) fn finish(self, rt: &impl Files) -> io::Result<()> {
        self.place.put_under(rt, &self.file)
    }

    /// Removes what was written.
    pub(crate) fn give_up(self, rt: &impl Files) {
        self.place.give_up(rt);
    }
}

/// Makes a folder where nothing stands under its name, and answers whether it did.
pub(crate) fn make_folder(rt: &impl Files, name: &str) -> Result<bool, Ending> {
    match fs::create_dir(rt, name) {
        Ok(()) => Ok(true),
        Err(error) => match error.kind() {
            ErrorKind::AlreadyExists => Ok(false),
            kind => Err(Ending::Unwritten(kind)),
        },
    }
}
