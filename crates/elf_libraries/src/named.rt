//! Libraries that are opened for their names alone.
ghost use Rattle.std.specs.Prelude.{◌≡◌, IfOk, IfSome};
ghost use Rattle.std.specs.Option.{option_map};
ghost use Rattle.elf_libraries.specs.Tree.{found_view, opened_names};

use crate::files::Files;
use crate::opening::Opening;
use crate::tree::whole::opened;
use crate::tree::{LoadedFile, Opener};
use elf::StreamSource;
use std::alloc::{AllocError, Global};

/// Libraries that are read by parts, only their headers and their names. A library that cannot be read so is read
/// whole.
#[derive(Clone, Copy)]
pub struct NamedLibraries<'a, F> {
    pub files: &'a F,
}

impl<'a, F: Files> Opener for NamedLibraries<'a, F> {
    ghost use Rattle.std.specs.Option.{option_map};
    ghost use Rattle.elf_libraries.specs.Folder.{opened_in};

    ghost opened = { λ s. option_map opened_in (F.known s.files.now) };

    fn open_at(&self, alloc: Global, path: Vec<u8>) -> Result<Option<LoadedFile>, AllocError> {
        match open_named(alloc, self.files, &path)? {
            Some(file) => Ok(Some(file.with_identity(self.files.identity(&path)?))),
            None => Ok(None),
        }
    }
}

// Opens a library by its names alone.
fn open_named<F: Files>(
    alloc: Global,
    files: &F,
    path: &[u8],
) -> Result<Option<LoadedFile>, AllocError>
    ensures { IfOk result (λ found. IfSome (F.known files.now)
        (λ files. opened_names files.contents path.now ≡ option_map found_view found)) }
{
    let source = match files.open_library(path) {
        Opening::Parts(source) => source,
        Opening::Whole => return open_whole(alloc, files, path),
        Opening::Missing => return Ok(None),
    };
    match LoadedFile::open_names(alloc, path, source) {
        Some(file) => Ok(Some(file)),
        None => open_whole(alloc, files, path),
    }
}

// Opens a library that is read whole.
fn open_whole<F: Files>(
    alloc: Global,
    files: &F,
    path: &[u8],
) -> Result<Option<LoadedFile>, AllocError>
    ensures { IfOk result (λ found. IfSome (F.known files.now)
        (λ files. opened_names files.contents path.now ≡ option_map found_view found)) }
{
    files.has_libraries();
    let Some(bytes) = files.read_library(path)? else {
        return Ok(None);
    };
    match opened(alloc, Vec::from_slice(alloc, path)?, bytes)? {
        Some(file) => Ok(Some(file.without_bytes(alloc))),
        None => Ok(None),
    }
}
