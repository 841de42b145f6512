//! The files of the operating system.
ghost use Rattle.std.specs.Prelude.{None};

use crate::asked_folders::AskedFolders;
use crate::files::Files;
use crate::folder::{Entry, EntryKind};
use crate::opening::Opening;
use crate::tree::{Identity, Libraries};
use elf::{FileSource, abi};
use elf_archive::archive::thinness;
use std::alloc::{AllocError, Global};
use std::fs::{DirEntry, File, FileType};
use std::io::Read;
use std::os::unix::fs::{FileTypeExt, MetadataExt};
use std::str::from_utf8;
use std::{fs, io};

// How many bytes of a pipe are read first: those that show the format of a file.
const FRONT: u64 = 16;

/// The files of the operating system.
#[derive(Drop)]
pub struct SystemFiles<'a> {
    rt: &'a HostRuntime,
    asked: AskedFolders,
}

impl<'a> SystemFiles<'a> {
    /// Returns the files that this runtime can open.
    pub fn new(rt: &'a HostRuntime) -> Self {
        SystemFiles {
            rt,
            asked: AskedFolders::new(rt.alloc()),
        }
    }

    // What becomes of a library that could not be opened. Whether an allocation fails again, reading it whole tells.
    fn unopened(&self, path: &str, error: io::ErrorKind) -> Opening<FileSource> {
        match error {
            io::ErrorKind::OutOfMemory => Opening::Whole,
            io::ErrorKind::NotFound => {
                self.asked.ask_for_folder_of(self.rt, path);
                Opening::Missing
            }
            _ => Opening::Missing,
        }
    }
}

impl Files for SystemFiles<'_> {
    type Source = FileSource;

    // Files may change, so they are not known.
    ghost known = { λ _. None };

    // Only a regular file is read by parts: a pipe is read once, from its start.
    fn open(&self, path: &str) -> Option<FileSource> {
        if path == "-" || !fs::metadata(self.rt, path).ok()?.is_file() {
            return None;
        }
        let file = File::open(self.rt, path).ok()?;
        Some(FileSource::new(file))
    }

    // Libraries are searched for in many folders, and some are on no machine.
    fn open_library(&self, path: &[u8]) -> Opening<FileSource> {
        let Ok(path) = from_utf8(path) else {
            return Opening::Missing;
        };
        if self.asked.lack_folder_of(path) {
            return Opening::Missing;
        }
        match open_regular(self.rt, path) {
            Ok(Some(file)) => Opening::Parts(FileSource::new(file)),
            Ok(None) => Opening::Missing,
            Err(error) => self.unopened(path, error.kind()),
        }
    }

    // Standard input is read through its own handle, since the system may not allow opening it again.
    fn read(&self, path: &str) -> io::Result<Vec<u8>> {
        match path {
            "-" | "/dev/stdin" => read_pipe(self.rt.alloc(), self.rt.stdin()),
            _ => read_file(self.rt, path),
        }
    }

    fn read_front(&self, path: &[u8], most: usize) -> Result<Option<Vec<u8>>, AllocError> {
        let Ok(path) = from_utf8(path) else {
            return Ok(None);
        };
        if_read(read_front(self.rt, path, most))
    }

    // A path without metadata is no folder: the error comes when it is read.
    fn folder(&self, path: &str) -> io::Result<Option<Vec<Entry>>> {
        match fs::metadata(self.rt, path) {
            Ok(found) if found.is_dir() && path != "-" => Ok(Some(entries_in(self.rt, path)?)),
            _ => Ok(None),
        }
    }

    fn identity(&self, path: &[u8]) -> Result<Option<Identity>, AllocError> {
        match from_utf8(path) {
            Ok(path) => identity_of(self.rt, path),
            Err(_) => Ok(None),
        }
    }

    fn has_libraries(&self) {}
}

impl Libraries for SystemFiles<'_> {
    ghost contents = { λ _. None };

    // A path that is no UTF-8 cannot be opened by std of Rattle, and counts as none.
    fn read_library(&self, path: &[u8]) -> Result<Option<Vec<u8>>, AllocError> {
        let Ok(path) = from_utf8(path) else {
            return Ok(None);
        };
        if_read(read_regular(self.rt, path))
    }
}

// What cannot be read counts as none.
fn if_read(found: io::Result<Option<Vec<u8>>>) -> Result<Option<Vec<u8>>, AllocError> {
    match found {
        Ok(found) => Ok(found),
        Err(error) => match error.kind() {
            io::ErrorKind::OutOfMemory => Err(AllocError),
            _ => Ok(None),
        },
    }
}

// The files and the folders in a folder.
fn entries_in(rt: &HostRuntime, folder: &str) -> io::Result<Vec<Entry>> {
    let mut entries = Vec::new(rt.alloc());
    for item in fs::read_dir(rt, folder)? {
        if let Some(entry) = entry_of(rt.alloc(), item)? {
            entries.push(entry)?;
        }
    }
    Ok(entries)
}

// The file or the folder that a name of a folder stands for. Std of Rattle does not tell a name that is not UTF-8.
fn entry_of(alloc: Global, item: io::Result<DirEntry>) -> io::Result<Option<Entry>> {
    let item = match item {
        Ok(item) => item,
        Err(error) if error.kind() == io::ErrorKind::InvalidFilename => {
            return Ok(Some(Entry {
                path: String::new(alloc),
                kind: EntryKind::Unnamed,
            }));
        }
        Err(error) => return Err(error),
    };
    let Some(kind) = kind_of(&item) else {
        return Ok(None);
    };
    let path = String::from_str(alloc, item.file_name())?;
    Ok(Some(Entry { path, kind }))
}

// Links, devices, pipes and sockets are left out. A name whose type is not known counts as a file: if it cannot be
// read, the error comes then.
fn kind_of(item: &DirEntry) -> Option<EntryKind> {
    match item.file_type() {
        Ok(kind) if kind.is_dir() => Some(EntryKind::Folder),
        Ok(kind) if !kind.is_file() => None,
        _ => Some(EntryKind::File),
    }
}

// Opens a file if it is a regular one: another one may wait for someone to write it, or have no end.
fn open_regular(rt: &HostRuntime, path: &str) -> io::Result<Option<File>> {
    if !fs::metadata(rt, path)?.is_file() {
        return Ok(None);
    }
    Ok(Some(File::open(rt, path)?))
}

fn read_regular(rt: &HostRuntime, path: &str) -> io::Result<Option<Vec<u8>>> {
    match open_regular(rt, path)? {
        Some(file) => Ok(Some(read_to_length(rt, file)?)),
        None => Ok(None),
    }
}

// Which file is at a path. A file that is gone is none.
fn identity_of(rt: &HostRuntime, path: &str) -> Result<Option<Identity>, AllocError> {
    match fs::metadata(rt, path) {
        Ok(found) => Ok(Some(Identity {
            device: found.dev(),
            inode: found.ino(),
        })),
        Err(error) => match error.kind() {
            io::ErrorKind::OutOfMemory => Err(AllocError),
            _ => Ok(None),
        },
    }
}

// Reads the first bytes of a file, whatever length the system reports.
fn read_front(rt: &HostRuntime, path: &str, most: usize) -> io::Result<Option<Vec<u8>>> {
    let Some(file) = open_regular(rt, path)? else {
        return Ok(None);
    };
    let mut data = Vec::new(rt.alloc());
    file.take(most as u64).read_to_end(&mut data)?;
    Ok(Some(data))
}

// Reads a pipe until its writer closes it. Of one that begins neither as an ELF file nor as an archive only the
// first bytes are read, since nothing else is asked of it, and it may have no end.
fn read_pipe<R: Read + Drop>(alloc: Global, mut pipe: R) -> io::Result<Vec<u8>> {
    let mut data = Vec::new(alloc);
    pipe.by_ref().take(FRONT).read_to_end(&mut data)?;
    if data.starts_with(&abi::ELFMAGIC) || thinness(data.as_slice()).is_some() {
        pipe.read_to_end(&mut data)?;
    }
    Ok(data)
}

// Reads a regular file or a pipe, which a shell may have made in place of a file. A device may have no end.
fn read_file(rt: &HostRuntime, path: &str) -> io::Result<Vec<u8>> {
    let kind = fs::metadata(rt, path)?.file_type();
    if kind.is_file() {
        read_to_length(rt, File::open(rt, path)?)
    } else if kind.is_fifo() {
        read_pipe(rt.alloc(), File::open(rt, path)?)
    } else {
        let reason = refused(kind);
        Err(io::Error::new(io::ErrorKind::InvalidInput, reason))
    }
}

// Why nothing is read of what is neither a regular file nor a pipe.
fn refused(kind: FileType) -> &'static str {
    if kind.is_dir() {
        "is a folder; see -R"
    } else if kind.is_char_device() || kind.is_block_device() {
        "is a device"
    } else {
        "is not a regular file"
    }
}

// Reads a regular file up to the length that the system reports: some files of the system have more, without end.
fn read_to_length(rt: &HostRuntime, file: File) -> io::Result<Vec<u8>> {
    let length = file.metadata()?.len();
    let mut data = Vec::with_capacity(rt.alloc(), length as usize)?;
    file.take(length).read_to_end(&mut data)?;
    Ok(data)
}
