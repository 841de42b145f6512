//! Libraries that are read whole.
ghost use Rattle.std.specs.Prelude.{◌≡◌, IfOk};
ghost use Rattle.std.specs.Option.{option_map};
ghost use Rattle.std.specs.Result.{result_ok};
ghost use Rattle.elf_libraries.specs.Tree.{file_of, found_view};

use crate::tree::{Libraries, LoadedFile, OpenError, Opener};
use std::alloc::{AllocError, Global};

/// Libraries that are read whole, and whose bytes are kept.
#[derive(Clone, Copy)]
pub struct WholeLibraries<'a, L> {
    pub libraries: &'a L,
}

impl<'a, L: Libraries> Opener for WholeLibraries<'a, L> {
    ghost use Rattle.elf_libraries.specs.Tree.{opened_whole};

    ghost opened = { λ s. option_map opened_whole (L.contents s.libraries.now) };

    fn open_at(&self, alloc: Global, path: Vec<u8>) -> Result<Option<LoadedFile>, AllocError> {
        match self.libraries.read_library(&path)? {
            Some(bytes) => opened(alloc, path, bytes),
            None => Ok(None),
        }
    }
}

/// Returns the ELF file that the bytes at a path are, or `None` if they are none. The only error is a failed allocation.
pub fn opened(
    alloc: Global,
    path: Vec<u8>,
    bytes: Vec<u8>,
) -> Result<Option<LoadedFile>, AllocError>
    ensures { IfOk result (λ found. option_map found_view found ≡ result_ok (file_of path.items bytes.items)) }
{
    match LoadedFile::open(alloc, path, bytes) {
        Ok(file) => Ok(Some(file)),
        Err(OpenError::Open(_)) => Ok(None),
        Err(OpenError::Memory) => Err(AllocError),
    }
}
