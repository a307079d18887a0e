//! A file that is made when it is first written.

ghost use Rattle.std.specs.Prelude.{◌≡◌, None, IfOk};
ghost use Rattle.std.specs.Option.{option_and_then};
ghost use Rattle.std.specs.Io.{WritesAtMost};
ghost use Rattle.std.specs.Io.KnownBytes.{WriteAppends};

use crate::aside::Fate;
use crate::fault::FileFault;
use crate::folders::Folders;
use crate::guard::Content;
use crate::place::{Identity, MOST_NAMES, Place, take_away, write_name};
use crate::settling::dress;
use crate::whole::Whole;
use std::alloc::{AllocError, Global};
use std::fs::OpenFile;
use std::io::{ErrorKind, Write};
use std::os::unix::fs::OpenOptionsExt;
use std::rt::Files;
use std::{fs, io};

/// What stands behind its path in the name of a file that isn't at its path yet.
const PART: &str = ".part";

/// The system's number for a path at which something stands.
const EXISTS: i32 = 17;

/// A writer that makes its file beside a path, under a name that is free, at its first write. Until then nothing is made.
/// What is no file, as a pipe, is written straight. `finish` gives the file once it is whole, `give_up` takes it away.
#[derive(Drop)]
pub struct Late<'a, F: Files> {
    files: &'a F,
    alloc: Global,
    content: Content,
    place: Place,
    /// The name of the file beside the path, with room for each that is tried.
    name: String,
    /// The file of that name that was made here.
    made: Option<Identity>,
    file: Option<F::File>,
    bytes: u64,
    fault: Option<io::Error>,
}

/// The mode with which a file is made beside a path: where a file stands there, nobody else may look into the new one before
/// it has that file's mode.
fn first_mode<F: Files>(files: &F, path: &str) -> u32 {
    if fs::metadata(files, path).is_ok() {
        0o600
    } else {
        0o666
    }
}

/// Opens what stands at a path and is no file; not a file that came there since that was seen.
fn open_straight<F: Files>(files: &F, path: &str) -> io::Result<F::File> {
    let opened = fs::OpenOptions::new().write(true).open(files, path)?;
    if opened.metadata()?.is_file() {
        return Err(io::Error::from_raw_os_error(EXISTS));
    }
    Ok(opened)
}

/// Makes a file under the first free name beside a path, and leaves that name.
fn make_beside<F: Files>(files: &F, name: &mut String, path: &str) -> io::Result<F::File> {
    let mode = first_mode(files, path);
    for count in 1..=MOST_NAMES {
        write_name(name, path, PART, count)?;
        let made = fs::OpenOptions::new()
            .write(true)
            .create_new(true)
            .mode(mode)
            .open(files, name.as_str());
        match made {
            Err(error) if error.kind() == ErrorKind::AlreadyExists => {}
            made => return made,
        }
    }
    Err(io::Error::from(ErrorKind::AlreadyExists))
}

impl<'a, F: Files> Late<'a, F> {
    /// A writer of such content to a path, which makes nothing yet and tells no bytes. All the memory that it needs until
    /// the file is whole is taken here (own profile).
    pub fn new(
        files: &'a F,
        alloc: Global,
        path: &str,
        content: Content,
    ) -> Result<Late<'a, F>, AllocError>
        ensures { IfOk result (λ late. option_and_then F.File.contents late.file ≡ None) }
    {
        let place = Place::of(files, alloc, path)?;
        let mut name = String::new(alloc);
        if let Some(path) = place.beside() {
            write_name(&mut name, path, PART, MOST_NAMES)?;
        }
        Ok(Late {
            files,
            alloc,
            content,
            place,
            name,
            made: None,
            file: None,
            bytes: 0,
            fault: None,
        })
    }

    /// Makes the file, or opens what is no file.
    fn make(&mut self) -> io::Result<F::File>
        ensures { self.new.file ≡ self.old.file }
    {
        match &self.place {
            Place::Beside { path } => {
                let file = make_beside(self.files, &mut self.name, path.as_str())?;
                match file.metadata() {
                    Ok(found) => self.made = Some(Identity::of(&found)),
                    Err(why) => {
                        let _ = fs::remove_file(self.files, self.name.as_str());
                        return Err(why);
                    }
                }
                Ok(file)
            }
            Place::Straight { path } => open_straight(self.files, path.as_str()),
            Place::Nowhere { why } => Err(*why),
        }
    }

    /// Tries whether a file can be made there, with the owner and the mode of the one that it would replace: makes one and takes it
    /// away again. What is no file isn't tried.
    ///
    /// # Errors
    ///
    /// Why it can't.
    pub fn try_path(&mut self) -> io::Result<()> {
        if let Place::Straight { .. } = &self.place {
            return Ok(());
        }
        let file = self.make()?;
        let (Some(path), Some(made)) = (self.place.beside(), self.made) else {
            return Ok(());
        };
        let dressed = dress(self.files, &file, self.name.as_str(), path);
        self.made = None;
        take_away(self.files, self.name.as_str(), made)?;
        dressed
    }

    /// Writes some bytes, to the file if it is there, else to one that is made.
    fn put(&mut self, bytes: &[u8]) -> io::Result<usize>
        ensures bound { WritesAtMost result bytes.now }
        ensures bytes { WriteAppends (option_and_then F.File.contents self.old.file) (option_and_then F.File.contents self.new.file) result bytes.now }
    {
        if bytes.is_empty() {
            return Ok(0);
        }
        if let Some(file) = &mut self.file {
            return file.write(bytes);
        }
        let mut file = self.make()?;
        let count = file.write(bytes)?;
        self.file = Some(file);
        Ok(count)
    }

    /// The file, which is whole, once it has the mode and the owner of what stands at the path and is on the disk. None where nothing
    /// was written, or what was written is no file: then there is nothing to do.
    ///
    /// # Errors
    ///
    /// Why it isn't on the disk, and where it lies.
    pub fn finish(self) -> Result<Option<Whole<'a, F>>, FileFault> {
        let Late {
            files,
            alloc,
            content,
            place,
            name,
            made,
            file,
            bytes,
            ..
        } = self;
        let (Place::Beside { path }, Some(file), Some(made)) = (place, file, made) else {
            return Ok(None);
        };
        let dressed = dress(files, &file, name.as_str(), path.as_str());
        if let Err(why) = file.sync_all() {
            return Err(FileFault::Unsure { at: name, why });
        }
        if let Err(why) = dressed {
            return Err(FileFault::Aside { at: name, why });
        }
        Ok(Some(Whole {
            files,
            alloc,
            content,
            path,
            name,
            made,
            bytes,
        }))
    }

    /// Takes away what was written of the file, and says why it isn't whole.
    pub fn give_up(self) -> FileFault {
        let why = self.fault.unwrap_or(io::Error::from(ErrorKind::Other));
        if let Some(made) = self.made {
            let _ = take_away(self.files, self.name.as_str(), made);
        }
        FileFault::Unwritten { why }
    }
}

impl<'a, F: Files> Write for Late<'a, F> {
    // what its file tells, once there is one
    ghost contents = { λ late. option_and_then F.File.contents late.file };

    fn write(&mut self, bytes: &[u8]) -> io::Result<usize> {
        match self.put(bytes) {
            Ok(count) => {
                self.bytes = self.bytes.saturating_add(count as u64);
                Ok(count)
            }
            Err(error) => {
                self.fault = Some(error);
                Err(error)
            }
        }
    }

    fn flush(&mut self) -> io::Result<()> {
        match &mut self.file {
            Some(file) => file.flush(),
            None => Ok(()),
        }
    }
}

/// A file of these bytes that is whole, beside the path where it is to be; none where they went straight to what is no file, or there
/// are none (own profile).
///
/// # Errors
///
/// Why it isn't whole, or isn't on the disk; want of memory is one reason.
pub fn make_whole<'a, F: Files>(
    files: &'a F,
    alloc: Global,
    path: &str,
    content: Content,
    bytes: &[u8],
) -> Result<Option<Whole<'a, F>>, FileFault> {
    let mut late = Late::new(files, alloc, path, content)?;
    match late.write_all(bytes) {
        Ok(()) => late.finish(),
        Err(_) => Err(late.give_up()),
    }
}

/// Writes these bytes to a path: to a file that is made beside it, and takes its place there (own profile).
///
/// # Errors
///
/// Why it isn't there, and where it lies; want of memory is one reason.
pub fn write_whole<F: Folders>(
    files: &F,
    alloc: Global,
    path: &str,
    content: Content,
    bytes: &[u8],
) -> Result<(), FileFault> {
    match make_whole(files, alloc, path, content, bytes)? {
        Some(whole) => whole.settle(|_| Fate::Replaced).map(|_| ()),
        None => Ok(()),
    }
}
