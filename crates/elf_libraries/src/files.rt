//! Files by their paths.
ghost use Rattle.std.specs.Prelude.{◌≡◌, ◌⊎◌, ℕ, List, None, Option, Some, IfErr, IfOk, IfSome, take};
ghost use Rattle.std.specs.IoError.{error_kind};
ghost use Rattle.std.specs.Option.{option_map};
ghost use Rattle.std.specs.Vec.{vec_items};
ghost use Rattle.elf_libraries.specs.Folder.{KnownFiles, contents_known, folder_of, unreadable};
ghost use Rattle.elf_libraries.specs.Opening.{IsOpening};
ghost use Rattle.std.specs.declared.io.ErrorKind.TheVariants.{OutOfMemory};

use crate::folder::Entry;
use crate::opening::Opening;
use crate::tree::{Identity, Libraries};
use elf::StreamSource;
use std::alloc::AllocError;
use std::io;

/// Files by their paths.
pub trait Files: Libraries {
    type Source: StreamSource;

    /// The content of the file at each path, and what folder is there, if the files are known.
    ghost known: { Self → Option KnownFiles };

    /// Opens the file at a path, so that it can be read by parts. Returns `None` if it can only be read whole, or not
    /// at all; nothing was read of it then.
    fn open(&self, path: &str) -> Option<Self::Source>
        ensures { IfSome result (λ source. IfSome (known self.now) (λ files. (bytes : List ℕ)
            × (files.contents path.now ≡ Some bytes) × (Self.Source.content source ≡ Some bytes))) };

    /// Opens the library at a path, so that it can be read by parts.
    fn open_library(&self, path: &[u8]) -> Opening<Self::Source>
        ensures { IfSome (known self.now) (λ files. IsOpening Self.Source.content (files.contents path.now) result) };

    /// Returns the content of the whole file at a path, or the error of the system: that there is no such file, or that
    /// an allocation failed. `-` is standard input.
    fn read(&self, path: &str) -> io::Result<Vec<u8>>
        ensures error { IfErr result (λ error. IfSome (known self.now) (λ files. (files.contents path.now ≡ None)
            ⊎ (error_kind error ≡ OutOfMemory))) }
        ensures content { IfOk result (λ content. IfSome (known self.now) (λ files. files.contents path.now
            ≡ Some content.items)) };

    /// Returns which file is at a path, if there is one and the files tell so. Two paths with the same answer lead to one
    /// file. The only error is a failed allocation.
    fn identity(&self, path: &[u8]) -> Result<Option<Identity>, AllocError>
        ensures { IfOk result (λ found. IfSome (known self.now) (λ files. found ≡ files.identities path.now)) };

    /// Returns the first bytes of the regular file at a path, at most as many as `most`, or `None` if there is none that can
    /// be read. What length the system reports does not count: it reports none for some of its own files. The only error
    /// is a failed allocation.
    fn read_front(&self, path: &[u8], most: usize) -> Result<Option<Vec<u8>>, AllocError>
        ensures { IfOk result (λ front. IfSome (known self.now) (λ files.
            option_map (take most) (files.contents path.now) ≡ option_map vec_items front)) };

    /// Returns the regular files and the folders in the folder at a path by their names, in any order, or `None` if no
    /// folder is there. A link at the path is followed, and those in the folder are left out. The error is that of the
    /// system, if the folder cannot be read, or that an allocation failed.
    fn folder(&self, path: &str) -> io::Result<Option<Vec<Entry>>>
        ensures error { IfErr result (λ error. IfSome (known self.now) (λ files. (files.folders path.now ≡ unreadable)
            ⊎ (error_kind error ≡ OutOfMemory))) }
        ensures found { IfOk result (λ found. IfSome (known self.now) (λ files. files.folders path.now
            ≡ folder_of found)) };

    /// States that the libraries are files like the others: both are known, and the same, or none is known.
    fn has_libraries(&self)
        ensures { contents_known (known self.now) ≡ Self.contents self.now };
}
