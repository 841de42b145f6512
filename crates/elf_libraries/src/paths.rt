//! A list of paths, each once. A path is found in it by the logarithm of their number.
ghost use Rattle.std.specs.Prelude.{◌≡◌, ◌∷◌, ◌++◌, [], IfOk, OnOk, if◌then◌else◌, length, map, not};
ghost use Rattle.std.specs.List.{list_any};
ghost use Rattle.std.specs.Str.{bytes_eq};
ghost use Rattle.std.specs.Vec.{vec_items};

use std::alloc::{AllocError, Global};
use std::collections::BTreeSet;
use std::marker::Model;

/// Paths in order, each once, and a set of the same.
#[derive(Drop)]
pub(crate) struct Paths {
    list: Vec<Vec<u8>>,
    set: BTreeSet<Vec<u8>>,
}

impl Model for Paths {
    ghost use Rattle.std.specs.Prelude.{ℕ, List, map};
    ghost use Rattle.std.specs.Vec.{vec_items};
    ghost use Rattle.elf_libraries.specs.inner.Paths.{IsSetOf};

    ghost Value = { List (List ℕ) };

    ghost view = { λ paths. map vec_items paths.list.items };

    ghost invariant = { λ paths. IsSetOf (map vec_items paths.list.items) paths.set };
}

impl Paths {
    /// No paths.
    pub fn new(alloc: Global) -> Paths
        ensures { result ≡ [] }
    {
        Paths {
            list: Vec::new(alloc),
            set: BTreeSet::new(alloc),
        }
    }

    /// Returns the number of paths.
    pub fn len(&self) -> usize
        ensures { result ≡ length self.now }
    {
        self.list.len()
    }

    /// Adds a path at the end, if it is not listed, and returns whether it was added. The only error is a failed
    /// allocation.
    pub fn add(&mut self, alloc: Global, path: Vec<u8>) -> Result<bool, AllocError>
        ensures added { IfOk result (λ added. added ≡ not (list_any (bytes_eq path.items) self.old)) }
        ensures paths { OnOk result (self.new
            ≡ (if list_any (bytes_eq path.items) self.old then self.old else self.old ++ path.items ∷ [])) }
    {
        let key = Vec::from_slice(alloc, &path)?;
        // The list has room, so it never lacks a path of the set.
        self.list.reserve(1)?;
        let is_new = self.set.insert(key)?;
        if is_new {
            self.list.push(path)?;
        }
        Ok(is_new)
    }

    /// Returns the paths in order.
    pub fn into_list(self) -> Vec<Vec<u8>>
        ensures { map vec_items result.items ≡ self }
    {
        self.list
    }
}
