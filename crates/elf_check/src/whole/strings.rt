//! The strings of a section of a file that was checked.
ghost use Rattle.std.specs.Prelude.{◌≡◌, ◌≢◌, ◌<◌, ◌↔◌, IsSome, MatchOption, Ok, length};
ghost use Rattle.std.specs.Option.{option_map};
ghost use Rattle.std.specs.Result.{result_ok};
ghost use Rattle.elf_abi.specs.Values.{sht_strtab};
ghost use Rattle.elf_records.specs.StringTable.{string_at, strings_view};
ghost use Rattle.elf.specs.Answers.{section_data_as_strtab};
ghost use Rattle.elf_check.specs.Strings.{IsEmptyOrEndsWithNul};
ghost use Rattle.elf_check.specs.inner.StringProps.{EndsInNul-prop};

use super::section::WholeSection;
use elf::abi;
use elf::endian::EndianParse;
use elf::string_table::StringTable;

/// Strings whose last byte is 0, so that at each offset within them is a string.
#[derive(Debug, Drop)]
pub struct WholeStrings<'data> {
    strings: StringTable<'data>,
    ghost ends: { IsEmptyOrEndsWithNul (strings_view strings) } by { EndsInNul-prop (strings_view strings) },
}

impl<'data> WholeStrings<'data> {
    ghost use Rattle.elf_check.specs.Whole.{whole_strings};

    // The strings of a table whose last byte is 0.
    fn new(strings: StringTable<'data>) -> Self
        requires { IsEmptyOrEndsWithNul (strings_view strings) }
        ensures { whole_strings result ≡ strings_view strings.entry }
    {
        WholeStrings { strings }
    }

    /// Returns the bytes in which the strings lie.
    pub fn bytes(&self) -> &'data [u8]
        ensures { result.now ≡ whole_strings self.now }
    {
        self.strings.bytes()
    }

    /// How many bytes the strings have, with the 0 byte that ends each.
    pub fn len(&self) -> usize
        ensures { result ≡ length (whole_strings self.now) }
    {
        self.bytes().len()
    }

    /// Returns the bytes of the string at an offset, in bytes, without the 0 byte that ends it, or `None` exactly if
    /// the offset is not below `len`.
    pub fn get(&self, offset: usize) -> Option<&'data [u8]>
        ensures value { option_map (λ string. string.now) result
            ≡ result_ok (string_at (whole_strings self.now) offset) }
        ensures below { IsSome result ↔ (offset < length (whole_strings self.now)) }
    {
        if offset < self.len() {
            Some(self.strings.get_raw(offset).unwrap())
        } else {
            None
        }
    }
}

impl<'a, 'data, E: EndianParse> WholeSection<'a, 'data, E> {
    ghost use Rattle.elf_check.specs.Whole.{section_file, section_header, whole_strings};

    /// The strings of a section of type `SHT_STRTAB`, or `None` exactly if the section has another type.
    pub fn strings(&self) -> Option<WholeStrings<'data>>
        ensures { MatchOption result ((section_header self.now).sh_type ≢ sht_strtab) (λ strings.
            section_data_as_strtab (section_file E.little self.now) (section_header self.now)
            ≡ Ok (whole_strings strings)) }
    {
        if self.header.sh_type == abi::SHT_STRTAB {
            let strings = self.file.section_data_as_strtab(&self.header).unwrap();
            Some(WholeStrings::new(strings))
        } else {
            None
        }
    }
}
