//! Libraries in memory, whose contents are known.
ghost use Rattle.std.specs.Prelude.{◌≡◌, Some};
ghost use Rattle.std.specs.Option.{option_map};
ghost use Rattle.elf_libraries.specs.Tree.{content_in};

use crate::tree::Libraries;
use std::alloc::{AllocError, Global};

/// A file in memory.
#[derive(Debug, Clone, Copy)]
pub struct MemFile<'a> {
    pub path: &'a [u8],
    pub bytes: &'a [u8],
}

/// Files in memory. Of those with one path the first counts.
#[derive(Clone, Copy)]
pub struct MemLibraries<'a> {
    alloc: Global,
    files: &'a [MemFile<'a>],
}

impl<'a> MemLibraries<'a> {
    ghost use Rattle.elf_libraries.specs.Tree.{mem_files};

    /// These files. What is read of them is copied into memory of the allocator.
    pub fn new(alloc: Global, files: &'a [MemFile<'a>]) -> Self
        ensures { mem_files result ≡ files.now }
    {
        MemLibraries { alloc, files }
    }

    /// Returns the bytes of the file at a path, or `None` if there is none.
    pub fn find(&self, path: &[u8]) -> Option<&'a [u8]>
        ensures { option_map (λ bytes. bytes.now) result ≡ content_in (mem_files self.now) path.now }
    {
        for file in self.files {
            if file.path == path {
                return Some(file.bytes);
            }
        }
        None
    }
}

impl Libraries for MemLibraries<'_> {
    ghost use Rattle.elf_libraries.specs.Tree.{mem_files};

    ghost contents = { λ s. Some (content_in (mem_files s)) };

    fn read_library(&self, path: &[u8]) -> Result<Option<Vec<u8>>, AllocError> {
        match self.find(path) {
            Some(bytes) => Ok(Some(Vec::from_slice(self.alloc, bytes)?)),
            None => Ok(None),
        }
    }
}
