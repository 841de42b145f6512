//! The check of dynamic entries.
ghost use Rattle.std.specs.Prelude.{◌≡◌, MatchOption, Ok};
ghost use Rattle.std.specs.Option.{option_map};
ghost use Rattle.std.specs.Result.{result_ok};
ghost use Rattle.elf_records.specs.StringTable.{strings_view};
ghost use Rattle.elf.specs.Data.{content};
ghost use Rattle.elf.specs.ElfBytes.{view};
ghost use Rattle.elf.specs.ObjectFile.{object_file, section_part};
ghost use Rattle.elf_check.specs.Dynamic.{IsTrueOfDynamic, SoundDynamic};

mod entries;

use crate::faults::DynamicFault;
use elf::dynamic::Dyn;
use elf::endian::EndianParse;
use elf::headers::Headers;
use elf::parse::ParseAt;
use elf::section::SectionHeader;
use elf::string_table::StringTable;
use elf::{ElfBytes, abi};
use entries::entries_fault;
pub(crate) use entries::{has_null, is_null, names_string};

// The strings of a section, if its range lies in the file.
pub(crate) fn strings_in<'data, E: EndianParse>(
    file: &ElfBytes<'data, E>,
    shdr: &SectionHeader,
) -> Option<StringTable<'data>>
    ensures { option_map strings_view result
        ≡ result_ok (section_part (object_file E.little (view file.now)) shdr.now) }
{
    let strings = file.section_range(shdr).ok()?;
    Some(StringTable::new(strings))
}

// What a section of dynamic entries lacks.
pub(crate) fn dynamic_fault<E: EndianParse>(
    file: &ElfBytes<'_, E>,
    shdr: &SectionHeader,
    bytes: &[u8],
) -> Option<DynamicFault>
    requires { content (object_file E.little (view file.now)) shdr.now ≡ Ok bytes.now }
    ensures { let whole = object_file E.little (view file.now) in
        MatchOption result (SoundDynamic whole shdr.now) (IsTrueOfDynamic whole shdr.now) }
{
    if shdr.sh_entsize != Dyn::size_for(file.ehdr.class) as u64 {
        return Some(DynamicFault::EntrySize);
    }
    let Ok(linked) = file.section_at(shdr.sh_link as usize) else {
        return Some(DynamicFault::NotLinked);
    };
    if linked.sh_type != abi::SHT_STRTAB {
        return Some(DynamicFault::NotLinked);
    }
    let Some(strings) = strings_in(file, &linked) else {
        return Some(DynamicFault::NoStrings);
    };
    entries_fault(file.ehdr.endianness, file.ehdr.class, bytes, &strings)
}
