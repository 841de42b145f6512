//! The names by which libraries are found among the objects of a program, and the files that these are.
ghost use Rattle.std.specs.Prelude.{◌≡◌, ◌||◌, ℕ, List, [], OnOk};
ghost use Rattle.std.specs.List.{list_any};
ghost use Rattle.std.specs.Str.{bytes_eq};
ghost use Rattle.std.specs.declared.option.Option.{Option};
ghost use Rattle.elf_libraries.specs.Tree.{entry_view, identity_of, is_object, names_of, same_file};
ghost use Rattle.elf_libraries.specs.declared.tree.Identity.{Identity};
ghost use Rattle.elf_libraries.specs.inner.LoadedNames.{AreNamesOf, has_file, has_name, has_object};

use crate::tree::{Identity, Object};
use std::alloc::{AllocError, Global};
use std::collections::BTreeSet;

/// The names of all objects that were found, and the numbers of their files, as sets.
#[derive(Debug, Drop)]
pub struct LoadedNames {
    set: BTreeSet<Vec<u8>>,
    files: BTreeSet<(u64, u64)>,
}

impl LoadedNames {
    /// The names of no objects.
    pub fn new(alloc: Global) -> Self
        ensures { AreNamesOf result [] }
    {
        LoadedNames {
            set: BTreeSet::new(alloc),
            files: BTreeSet::new(alloc),
        }
    }

    /// Whether an object has the name, or is the file. The time grows with the logarithm of the number of names.
    pub fn has(&self, name: &[u8], identity: Option<Identity>) -> bool
        ensures { result ≡ has_object self.now name.now identity }
    {
        self.set.contains(name) || self.has_file(identity)
    }

    fn has_file(&self, identity: Option<Identity>) -> bool
        ensures { result ≡ has_file self.now identity }
    {
        match identity {
            Some(identity) => self.files.contains(&(identity.device, identity.inode)),
            None => false,
        }
    }

    /// Adds the names and the file of an object. The only error is a failed allocation.
    pub fn add_object(&mut self, alloc: Global, object: &Object) -> Result<(), AllocError>
        ensures { OnOk result ((name : List ℕ) (identity : Option Identity) → has_object self.new name identity
            ≡ (is_object name identity (entry_view object.now) || has_object self.old name identity)) }
    {
        let Some(file) = &object.file else {
            return Ok(());
        };
        self.add_names(alloc, object)?;
        self.add_file(file.identity)?;
        Ok(())
    }

    fn add_names(&mut self, alloc: Global, object: &Object) -> Result<(), AllocError>
        ensures files { self.new.files ≡ self.old.files }
        ensures names { OnOk result ((name : List ℕ) → has_name self.new name
            ≡ (list_any (bytes_eq name) (names_of (entry_view object.now)) || has_name self.old name)) }
    {
        let Some(file) = &object.file else {
            return Ok(());
        };
        self.add(alloc, &object.name)?;
        self.add(alloc, &file.path)?;
        match file.soname() {
            Some(soname) => self.add(alloc, soname),
            None => Ok(()),
        }
    }

    fn add(&mut self, alloc: Global, added: &[u8]) -> Result<(), AllocError>
        ensures files { self.new.files ≡ self.old.files }
        ensures names { OnOk result ((name : List ℕ) → has_name self.new name
            ≡ (bytes_eq name added.now || has_name self.old name)) }
    {
        let key = Vec::from_slice(alloc, added)?;
        self.set.insert(key)?;
        Ok(())
    }

    fn add_file(&mut self, added: Option<Identity>) -> Result<(), AllocError>
        ensures names { self.new.set ≡ self.old.set }
        ensures files { OnOk result ((identity : Option Identity) → has_file self.new identity
            ≡ (same_file identity added || has_file self.old identity)) }
    {
        if let Some(added) = added {
            self.files.insert((added.device, added.inode))?;
        }
        Ok(())
    }
}
