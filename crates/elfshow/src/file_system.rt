//! How the program opens the files that its words name.
ghost use Rattle.std.specs.Prelude.{◌≡◌, ℕ, Bool, false, List, Some, IfOk, IfSome};
ghost use Rattle.std.specs.declared.option.Option.{Option};

use elf::{MemSource, StreamSource};
use std::alloc::Global;
use std::io;

/// Files by their paths. The content of a file is known or unknown to the contracts.
pub trait FileSystem {
    /// An opened file.
    type Source: StreamSource;

    /// The content of the file at a path, if it is known.
    ghost content: { Self → List ℕ → Option (List ℕ) };

    /// Whether a source of the file at a path can fail.
    ghost can_fail: { Self → List ℕ → Bool };

    /// Opens the file at a path as a source, or returns the error of the file system.
    fn open(&self, path: &str) -> io::Result<Self::Source>
        ensures content { IfOk result (λ source. IfSome (content self.now path.now)
            (λ bytes. Self.Source.content source ≡ Some bytes)) }
        ensures nature { IfOk result (λ source. Self.Source.can_fail source ≡ can_fail self.now path.now) };

    /// Returns the content of the whole file at a path, or the error of the file system.
    fn read(&self, path: &str) -> io::Result<Vec<u8>>
        ensures { IfOk result (λ file. IfSome (content self.now path.now) (λ bytes. file.items ≡ bytes)) };
}

/// One file in memory, which is at every path.
#[derive(Drop)]
pub struct MemFile<'a> {
    /// The allocator for the copies that `read` returns.
    pub alloc: Global,
    /// The content of the file.
    pub bytes: &'a [u8],
}

impl<'a> FileSystem for MemFile<'a> {
    type Source = MemSource<'a>;

    ghost content = { λ file _. Some file.bytes.now };

    ghost can_fail = { λ _ _. false };

    fn open(&self, _path: &str) -> io::Result<MemSource<'a>> {
        Ok(MemSource::new(self.bytes))
    }

    fn read(&self, _path: &str) -> io::Result<Vec<u8>> {
        let mut copy = Vec::with_capacity(self.alloc, self.bytes.len())?;
        copy.extend_from_slice(self.bytes)?;
        Ok(copy)
    }
}
