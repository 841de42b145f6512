//! What the dynamic linker of the GNU C library does with the library at a path.
ghost use Rattle.std.specs.Prelude.{◌≡◌, IfOk, IfSome, Ok, Some};
ghost use Rattle.std.specs.Option.{option_map};
ghost use Rattle.nugwier_programs.specs.Loading.{judged, judged_if};

use crate::starts::loading::content_at;
use elf::MemSource;
use elf_libraries::files::Files;
use elf_libraries::opening::Opening;
use elf_loader::glibc::reading::verdict_of;
use elf_loader::glibc::{Candidate, Kind};
use std::alloc::{AllocError, Global};

// What it does with a library of these bytes.
fn judge_bytes(alloc: Global, linker: &Kind, bytes: &[u8]) -> Result<Candidate, AllocError>
    ensures { IfOk result (λ found. judged linker.now bytes.now ≡ Ok found) }
{
    let mut source = MemSource::new(bytes);
    match verdict_of(alloc, linker, &mut source) {
        Ok(found) => Ok(found),
        Err(_) => Err(AllocError),
    }
}

// What it does with a library that is read whole, if it is there.
fn judge_whole<F: Files>(
    alloc: Global,
    files: &F,
    linker: &Kind,
    path: &[u8],
) -> Result<Option<Candidate>, AllocError>
    ensures { IfOk result (λ found. IfSome (F.known files.now)
        (λ files. judged_if linker.now (files.contents path.now) ≡ option_map (λ found. Ok found) found)) }
{
    match content_at(files, path)? {
        Some(bytes) => Ok(Some(judge_bytes(alloc, linker, bytes.as_slice())?)),
        None => Ok(None),
    }
}

/// Returns what the dynamic linker does with the library at a path, if it is there. No more of it is read than it is asked
/// for; a library that cannot be read so is read whole.
pub(crate) fn judge_at<F: Files>(
    alloc: Global,
    files: &F,
    linker: &Kind,
    path: &[u8],
) -> Result<Option<Candidate>, AllocError>
    ensures { IfOk result (λ found. IfSome (F.known files.now)
        (λ files. judged_if linker.now (files.contents path.now) ≡ option_map (λ found. Ok found) found)) }
{
    match files.open_library(path) {
        Opening::Missing => return Ok(None),
        Opening::Parts(mut source) => {
            if let Ok(found) = verdict_of(alloc, linker, &mut source) {
                return Ok(Some(found));
            }
        }
        Opening::Whole => {}
    }
    judge_whole(alloc, files, linker, path)
}
