//! The dynamic entries of a section of a file that was checked.
ghost use Rattle.std.specs.Prelude.{◌≡◌, ◌≢◌, MatchOption, Ok};
ghost use Rattle.elf_abi.specs.Values.{sht_dynamic};
ghost use Rattle.elf_check.specs.Dynamic.{dynamic_entries};

use super::dynamic::WholeDynamic;
use super::section::WholeSection;
use crate::dynamic::strings_in;
use elf::abi;
use elf::dynamic::DynamicTable;
use elf::endian::EndianParse;
use elf::headers::Headers;

impl<'a, 'data, E: EndianParse> WholeSection<'a, 'data, E> {
    ghost use Rattle.elf_check.specs.DynamicViews.{entries_left};
    ghost use Rattle.elf_check.specs.Whole.{section_file, section_header};

    // The entries of a section of dynamic entries.
    pub(super) fn dynamic_entries(&self) -> WholeDynamic<'data, E>
        requires { (section_header self.now).sh_type ≡ sht_dynamic }
        ensures { dynamic_entries (section_file E.little self.now) (section_header self.now) ≡ Ok (entries_left
            result) }
    {
        let (bytes, _) = self.data();
        let linked = self.file.section_at(self.header.sh_link as usize).unwrap();
        let strings = strings_in(self.file, &linked).unwrap();
        let (endian, class) = (self.file.ehdr.endianness, self.file.ehdr.class);
        let table = DynamicTable::<E>::new(endian, class, bytes);
        WholeDynamic::new(&table, strings)
    }

    /// The dynamic entries before the first with the tag `DT_NULL`, each with the string that it names, or `None`
    /// exactly if the section is not one of dynamic entries.
    pub fn dynamic(&self) -> Option<WholeDynamic<'data, E>>
        ensures { MatchOption result ((section_header self.now).sh_type ≢ sht_dynamic) (λ entries.
            dynamic_entries (section_file E.little self.now) (section_header self.now) ≡ Ok (entries_left entries)) }
    {
        if self.header.sh_type == abi::SHT_DYNAMIC {
            Some(self.dynamic_entries())
        } else {
            None
        }
    }
}
