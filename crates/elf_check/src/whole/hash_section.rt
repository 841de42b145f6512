//! The hash tables of a file that was checked.
ghost use Rattle.std.specs.Prelude.{◌≡◌, ◌≢◌, MatchOption, None};
ghost use Rattle.std.specs.Option.{IsSomeAnd};
ghost use Rattle.elf_abi.specs.Values.{sht_gnu_hash, sht_hash};
ghost use Rattle.elf_hash_check.specs.declared.hashcheck.any.HashKind.TheVariants.{Gnu, Sysv};
ghost use Rattle.elf_check.specs.Hashes.{IsObjectOf, IsObjectOfSection, SoundHash, hash_kind, look_up_section};

use super::WholeFile;
use super::section::WholeSection;
use crate::hashes::symbols_of;
use elf::abi;
use elf::endian::EndianParse;
use elf::headers::Headers;
use elf_hash_check::hashcheck::{AnyChecked, Checked, HashKind, check_any};

impl<'a, 'data, E: EndianParse> WholeSection<'a, 'data, E> {
    ghost use Rattle.elf_hash_check.specs.CheckedTable.{object_view};
    ghost use Rattle.elf_check.specs.Whole.{section_file, section_header};

    // The table of a hash section of a kind.
    pub(super) fn checked_table(&self, kind: HashKind) -> AnyChecked<'data, E>
        requires { SoundHash kind (section_file E.little self.now) (section_header self.now) }
        ensures { IsObjectOf kind (section_file E.little self.now) (section_header self.now) (object_view result) }
    {
        let linked = self.file.section_at(self.header.sh_link as usize).unwrap();
        let (symbols, strings) = symbols_of(self.file, &linked).unwrap();
        let (bytes, _) = self.data();
        let (endian, class) = (self.file.ehdr.endianness, self.file.ehdr.class);
        match check_any(kind, endian, class, bytes, symbols, strings) {
            Ok(Checked::Sound(table)) => table,
            Ok(Checked::Faulty(_)) => unreachable!(),
            Err(_) => unreachable!(),
        }
    }

    /// The table of a gABI hash section, or `None` exactly if the section is none.
    pub fn sysv_hash_table(&self) -> Option<AnyChecked<'data, E>>
        ensures { MatchOption result ((section_header self.now).sh_type ≢ sht_hash) (λ table.
            IsObjectOf Sysv (section_file E.little self.now) (section_header self.now) (object_view table)) }
    {
        if self.header.sh_type == abi::SHT_HASH {
            Some(self.checked_table(HashKind::Sysv))
        } else {
            None
        }
    }

    /// The table of a GNU hash section, or `None` exactly if the section is none.
    pub fn gnu_hash_table(&self) -> Option<AnyChecked<'data, E>>
        ensures { MatchOption result ((section_header self.now).sh_type ≢ sht_gnu_hash) (λ table.
            IsObjectOf Gnu (section_file E.little self.now) (section_header self.now) (object_view table)) }
    {
        if self.header.sh_type == abi::SHT_GNU_HASH {
            Some(self.checked_table(HashKind::Gnu))
        } else {
            None
        }
    }

    /// The table of a hash section of either kind, with the symbols that the section is linked to, or `None` exactly if
    /// the section is none. The table is made by a check of the section, so make it once: its look-ups `find` and
    /// `find_all` check nothing and return no errors.
    pub fn hash_table(&self) -> Option<AnyChecked<'data, E>>
        ensures { MatchOption result (hash_kind (section_header self.now) ≡ None) (λ table.
            IsObjectOfSection (section_file E.little self.now) (section_header self.now) (object_view table)) }
    {
        match self.header.sh_type {
            abi::SHT_HASH => Some(self.checked_table(HashKind::Sysv)),
            abi::SHT_GNU_HASH => Some(self.checked_table(HashKind::Gnu)),
            _ => None,
        }
    }
}

impl<'a, 'data, E: EndianParse> WholeFile<'a, 'data, E> {
    ghost use Rattle.elf_hash_check.specs.CheckedTable.{object_view};
    ghost use Rattle.elf_check.specs.Whole.{whole_view};

    /// The table by which names are looked up: that of the first section of type `SHT_GNU_HASH`, or if there is none
    /// that of the first of type `SHT_HASH`, with the symbols that the section is linked to. `None` exactly if the file
    /// has neither. The table is made by a check of the section, so make it once: `find` returns a symbol exactly if an
    /// indexed symbol has the name.
    pub fn hash_table(&self) -> Option<AnyChecked<'data, E>>
        ensures { let whole = whole_view E.little self.now in
            MatchOption result (look_up_section whole ≡ None) (λ table.
            IsSomeAnd (look_up_section whole) (λ s. IsObjectOfSection whole s (object_view table))) }
    {
        match self.first_section_of(abi::SHT_GNU_HASH) {
            Some(section) => Some(section.checked_table(HashKind::Gnu)),
            None => match self.first_section_of(abi::SHT_HASH) {
                Some(section) => Some(section.checked_table(HashKind::Sysv)),
                None => None,
            },
        }
    }
}
