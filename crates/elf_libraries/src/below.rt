//! Files below a folder, as those of the image of a system.
ghost use Rattle.std.specs.Prelude.{◌≡◌, IfOk, string_bytes};
ghost use Rattle.std.specs.Option.{option_map};
ghost use Rattle.elf_libraries.specs.Below.{below};

use crate::files::Files;
use crate::folder::Entry;
use crate::opening::Opening;
use crate::tree::{Identity, Libraries};
use std::alloc::{AllocError, Global};
use std::io;

/// Files whose paths are taken below a folder, if there is one.
#[derive(Clone, Copy)]
pub struct FilesBelow<'a, F> {
    pub alloc: Global,
    pub root: Option<&'a str>,
    pub files: &'a F,
}

impl<F> FilesBelow<'_, F> {
    // The path of the file that has this path below the folder.
    fn full(&self, path: &[u8]) -> Result<Vec<u8>, AllocError>
        ensures { IfOk result (λ full. full.items ≡ below (option_map (λ root. root.now) self.now.root) path.now) }
    {
        let Some(root) = self.root else {
            return Vec::from_slice(self.alloc, path);
        };
        let mut full = Vec::from_slice(self.alloc, root.as_bytes())?;
        if !path.starts_with(b"/") {
            full.push(b'/')?;
        }
        full.extend_from_slice(path)?;
        Ok(full)
    }

    // The same as text.
    fn full_text(&self, path: &str) -> Result<String, AllocError>
        ensures { IfOk result (λ full. string_bytes full
            ≡ below (option_map (λ root. root.now) self.now.root) path.now) }
    {
        let Some(root) = self.root else {
            return String::from_str(self.alloc, path);
        };
        let mut full = String::from_str(self.alloc, root)?;
        if !path.as_bytes().starts_with(b"/") {
            full.push('/')?;
        }
        full.push_str(path)?;
        Ok(full)
    }
}

impl<'a, F: Files> Files for FilesBelow<'a, F> {
    ghost use Rattle.elf_libraries.specs.Below.{known_below};

    type Source = F::Source;

    ghost known = { λ s. known_below (option_map (λ root. root.now) s.root) (F.known s.files.now) };

    fn open(&self, path: &str) -> Option<F::Source> {
        let full = self.full_text(path).ok()?;
        self.files.open(full.as_str())
    }

    fn open_library(&self, path: &[u8]) -> Opening<F::Source> {
        match self.full(path) {
            Ok(full) => self.files.open_library(&full),
            Err(_) => Opening::Whole,
        }
    }

    fn read(&self, path: &str) -> io::Result<Vec<u8>> {
        let full = self.full_text(path)?;
        self.files.read(full.as_str())
    }

    fn read_front(&self, path: &[u8], most: usize) -> Result<Option<Vec<u8>>, AllocError> {
        let full = self.full(path)?;
        self.files.read_front(&full, most)
    }

    fn folder(&self, path: &str) -> io::Result<Option<Vec<Entry>>> {
        let full = self.full_text(path)?;
        self.files.folder(full.as_str())
    }

    fn identity(&self, path: &[u8]) -> Result<Option<Identity>, AllocError> {
        let full = self.full(path)?;
        self.files.identity(&full)
    }

    fn has_libraries(&self) {
        self.files.has_libraries();
    }
}

impl<F: Files> Libraries for FilesBelow<'_, F> {
    ghost use Rattle.elf_libraries.specs.Below.{contents_below};

    ghost contents = { λ s. option_map (contents_below (option_map (λ root. root.now) s.root)) (F.contents s.files.now) };

    fn read_library(&self, path: &[u8]) -> Result<Option<Vec<u8>>, AllocError> {
        let full = self.full(path)?;
        self.files.read_library(&full)
    }
}
