//! Libraries as the dynamic linker of the GNU C library takes them: the search for a name ends at a file that it refuses.
ghost use Rattle.std.specs.Prelude.{◌≡◌, IfOk, IfSome};
ghost use Rattle.elf_libraries.specs.Tree.{found_view};
ghost use Rattle.nugwier_programs.specs.Loading.{is_refused, refused_file};

use crate::starts::judging::judge_at;
use elf_libraries::files::Files;
use elf_libraries::named::NamedLibraries;
use elf_libraries::tree::{Kind, LoadedFile, Opener};
use elf_loader::glibc;
use elf_loader::glibc::Candidate;
use std::alloc::{AllocError, Global};

/// Libraries that are opened by their names alone. A file that the dynamic linker refuses is found, so that the search for a
/// name ends there, and needs no libraries.
#[derive(Clone, Copy)]
pub(crate) struct JudgedLibraries<'a, F> {
    pub files: &'a F,
    /// What is wanted, if it is known.
    pub linker: Option<glibc::Kind>,
    /// What the program is.
    pub kind: Kind,
}

impl<'a, F: Files> Opener for JudgedLibraries<'a, F> {
    ghost use Rattle.std.specs.Option.{option_map};
    ghost use Rattle.nugwier_programs.specs.Loading.{opened_judged};

    ghost opened = { λ s. option_map (opened_judged s.linker s.kind) (F.known s.files.now) };

    fn open_at(&self, alloc: Global, path: Vec<u8>) -> Result<Option<LoadedFile>, AllocError> {
        let named = NamedLibraries { files: self.files };
        let Some(linker) = &self.linker else {
            return named.open_at(alloc, path);
        };
        if is_refused(alloc, self.files, linker, &path)? {
            return Ok(Some(refused_file(alloc, path, self.kind)));
        }
        named.open_at(alloc, path)
    }
}

// Whether the dynamic linker refuses the file at a path, if there is one.
fn is_refused<F: Files>(
    alloc: Global,
    files: &F,
    linker: &glibc::Kind,
    path: &[u8],
) -> Result<bool, AllocError>
    ensures { IfOk result (λ refused. IfSome (F.known files.now)
        (λ files. refused ≡ is_refused linker.now (files.contents path.now))) }
{
    let found = judge_at(alloc, files, linker, path)?;
    Ok(matches!(found, Some(Candidate::Refused(_))))
}

// A file that is found and refused.
fn refused_file(alloc: Global, path: Vec<u8>, kind: Kind) -> LoadedFile
    ensures { found_view result ≡ refused_file kind path.items }
{
    LoadedFile {
        path,
        identity: None,
        bytes: Vec::new(alloc),
        kind,
        names: Ok(None),
    }
}
