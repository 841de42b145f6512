//! Files and folders in memory, which are known.
ghost use Rattle.std.specs.Prelude.{[], ◌≡◌, IfOk, Some, map, take};
ghost use Rattle.elf_libraries.specs.Tree.{content_in};
ghost use Rattle.elf_libraries.specs.MemoryFiles.{folder_in, found_folder, mem_place};
ghost use Rattle.elf_libraries.specs.Folder.{place_of};

use crate::files::Files;
use crate::folder::{Entry, EntryKind};
use crate::opening::Opening;
use crate::tree::memory::{MemFile, MemLibraries};
use crate::tree::{Identity, Libraries};
use elf::MemSource;
use std::alloc::{AllocError, Global};
use std::io;

/// A name of a folder in memory.
#[derive(Debug, Clone, Copy)]
pub struct MemEntry<'a> {
    pub name: &'a str,
    pub kind: EntryKind,
}

/// A folder in memory, with its names if it can be read.
#[derive(Debug, Clone, Copy)]
pub struct MemFolder<'a> {
    pub path: &'a [u8],
    pub entries: Option<&'a [MemEntry<'a>]>,
}

/// Files and folders in memory. Of those with one path the first counts.
#[derive(Clone, Copy)]
pub struct MemFiles<'a> {
    alloc: Global,
    files: MemLibraries<'a>,
    folders: &'a [MemFolder<'a>],
}

impl<'a> MemFiles<'a> {
    ghost use Rattle.elf_libraries.specs.MemoryFiles.{mem_files, mem_folders};

    /// These files. What is read of them is copied into memory of the allocator.
    pub fn new(alloc: Global, files: &'a [MemFile<'a>]) -> Self
        ensures files { mem_files result ≡ files.now }
        ensures folders { mem_folders result ≡ [] }
    {
        MemFiles {
            alloc,
            files: MemLibraries::new(alloc, files),
            folders: &[],
        }
    }

    /// The same files, and these folders.
    pub fn with_folders(self, folders: &'a [MemFolder<'a>]) -> Self
        ensures files { mem_files result ≡ mem_files self.entry }
        ensures folders { mem_folders result ≡ folders.now }
    {
        MemFiles { folders, ..self }
    }

    // Returns the folder at a path.
    fn find_folder(&self, path: &[u8]) -> Option<MemFolder<'a>>
        ensures { found_folder result ≡ folder_in (mem_folders self.now) path.now }
    {
        for folder in self.folders {
            if folder.path == path {
                return Some(*folder);
            }
        }
        None
    }
}

fn first_bytes(bytes: &[u8], most: usize) -> &[u8]
    ensures { result.now ≡ take most bytes.now }
{
    bytes.get(..most).unwrap_or(bytes)
}

// The names of a folder.
fn copied(alloc: Global, entries: &[MemEntry<'_>]) -> Result<Vec<Entry>, AllocError>
    ensures { IfOk result (λ copies. map place_of copies.items ≡ map mem_place entries.now) }
{
    let mut copies = Vec::new(alloc);
    for entry in entries {
        copies.push(Entry {
            path: String::from_str(alloc, entry.name)?,
            kind: entry.kind,
        })?;
    }
    Ok(copies)
}

impl<'a> Files for MemFiles<'a> {
    ghost use Rattle.elf_libraries.specs.MemoryFiles.{known_in};

    type Source = MemSource<'a>;

    ghost known = { λ s. Some (known_in s) };

    fn open(&self, path: &str) -> Option<MemSource<'a>> {
        let bytes = self.files.find(path.as_bytes())?;
        Some(MemSource::new(bytes))
    }

    fn open_library(&self, path: &[u8]) -> Opening<MemSource<'a>> {
        match self.files.find(path) {
            Some(bytes) => Opening::Parts(MemSource::new(bytes)),
            None => Opening::Missing,
        }
    }

    fn read(&self, path: &str) -> io::Result<Vec<u8>> {
        let Some(bytes) = self.files.find(path.as_bytes()) else {
            return Err(io::Error::from(io::ErrorKind::NotFound));
        };
        Ok(Vec::from_slice(self.alloc, bytes)?)
    }

    fn read_front(&self, path: &[u8], most: usize) -> Result<Option<Vec<u8>>, AllocError> {
        match self.files.find(path) {
            Some(bytes) => Ok(Some(Vec::from_slice(self.alloc, first_bytes(bytes, most))?)),
            None => Ok(None),
        }
    }

    fn folder(&self, path: &str) -> io::Result<Option<Vec<Entry>>> {
        let Some(folder) = self.find_folder(path.as_bytes()) else {
            return Ok(None);
        };
        let Some(entries) = folder.entries else {
            return Err(io::Error::from(io::ErrorKind::PermissionDenied));
        };
        Ok(Some(copied(self.alloc, entries)?))
    }

    fn identity(&self, _path: &[u8]) -> Result<Option<Identity>, AllocError> {
        Ok(None)
    }

    fn has_libraries(&self) {}
}

impl Libraries for MemFiles<'_> {
    ghost use Rattle.elf_libraries.specs.MemoryFiles.{mem_files};

    ghost contents = { λ s. Some (content_in (mem_files s)) };

    fn read_library(&self, path: &[u8]) -> Result<Option<Vec<u8>>, AllocError> {
        self.files.read_library(path)
    }
}
