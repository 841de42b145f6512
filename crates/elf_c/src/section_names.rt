//! The names of sections, and sections by their names.
ghost use Rattle.std.specs.Prelude.{◌≡◌, IfSome, Ok, Some, is_some, true};
ghost use Rattle.std.specs.List.{find};
ghost use Rattle.std.specs.Option.{option_map};
ghost use Rattle.elf_records.specs.Number.{ok_map};
ghost use Rattle.elf_records.specs.StringTable.{strings_view};
ghost use Rattle.elf_records.specs.Section.{section_header_reads};
ghost use Rattle.elf_records.specs.Table.{table_in, table_items};
ghost use Rattle.elf_records.specs.declared.file.Class.TheVariants.{ELF64};
ghost use Rattle.elf.specs.Answers.{first_named, section_header_by_name};
ghost use Rattle.elf.specs.Names.{has_name, name_section, name_table};
ghost use Rattle.elf_c.specs.Loaded.{loaded_of_c};
ghost use Rattle.elf_c.specs.Records.{section_shown};
ghost use Rattle.elf_c.specs.SectionNames.{names_view, no_names_in, some_or};
ghost use Rattle.elf_c.specs.Status.{IsWrittenIf, done, read_status, written};

use crate::file::NugwierFile;
use crate::reading::loaded_in;
use crate::records::NugwierSection;
use crate::status::{NugwierStatus, done, unread};
use crate::table::{ForC, records_in};
use elf::headers::has_name;
use elf::reader::Reader;
use elf::{ReadError, abi, reader};
use elf_parts::endian::{AnyEndian, LittleEndian};
use elf_parts::file::Class;
use elf_parts::section::{SectionHeader, SectionHeaderTable};
use elf_parts::string_table::{StringTable, TerminatedStrings};

/// The strings with the names of the sections of a file, if it has any.
#[repr(C)]
#[derive(Drop)]
pub struct NugwierSectionNames<'data> {
    pub found: bool,
    pub strings: &'data [u8],
}

/// Finds the strings with the names of the sections of a file. If there are none, `found` is false, and nothing else is
/// written. An error leaves `names` as it is; the errors are those of `ElfBytes::section_headers_with_strtab`.
#[unsafe(no_mangle)]
pub extern "C" fn nugwier_section_names<'data>(
    file: &'data NugwierFile<'data>,
    names: &mut NugwierSectionNames<'data>,
) -> NugwierStatus
    ensures status { result ≡ read_status (name_table (loaded_of_c file.now)) }
    ensures names { IsWrittenIf names_view no_names_in names.new names.old (name_table (loaded_of_c file.now)) }
{
    match reader::section_names::<AnyEndian, _>(file) {
        Ok(Some(strings)) => {
            *names = NugwierSectionNames {
                found: true,
                strings: strings.bytes(),
            };
            done()
        }
        Ok(None) => {
            names.found = false;
            done()
        }
        Err(error) => unread(&error),
    }
}

// The section that holds the names of the sections, where the header gives its index.
#[tactic(auto, unfolding(elf::specs::Names::name_section))]
#[inline(always)]
fn name_section_quickly(file: &NugwierFile<'_>) -> Option<SectionHeader>
    ensures { IfSome result (λ s. name_section (loaded_of_c file.now) ≡ Ok (Some s)) }
{
    let index = file.header.shstrndx;
    if !file.has_sections || index == abi::SHN_UNDEF {
        return None;
    }
    if index == abi::SHN_XINDEX {
        return None;
    }
    records_in::<SectionHeader>(&file.sections).get_quickly(index as usize)
}

// The strings with the names of the sections. Where something is missing or cannot be read there is no answer:
// `section_names` has the error. Its result, which can hold any error, has some hundred bytes to be filled.
#[tactic(auto, unfolding(elf::specs::Names::name_table))]
#[inline(always)]
fn names_quickly<'data>(file: &NugwierFile<'data>) -> Option<StringTable<'data>>
    ensures { IfSome result (λ names. name_table (loaded_of_c file.now) ≡ Ok (Some (strings_view names))) }
{
    let shdr = name_section_quickly(file)?;
    let bytes = loaded_in(file).range_quickly(shdr.sh_offset, shdr.sh_size)?;
    Some(StringTable::new(bytes))
}

// The first header with a name in a table of a 64-bit little-endian file: `first_named`, which serves any table, makes
// a call for each header.
#[inline(always)]
fn first_in_table(
    sections: &[u8],
    names: &TerminatedStrings<'_>,
    name: &[u8],
) -> Option<SectionHeader>
    ensures { result ≡ find (has_name names.now name.now)
        (table_items section_header_reads (table_in true ELF64 sections.now)) }
{
    for shdr in SectionHeaderTable::new(LittleEndian, Class::ELF64, sections).iter() {
        if has_name(names, name, &shdr) {
            return Some(shdr);
        }
    }
    None
}

// The first section with a name among these.
#[inline(always)]
fn first_among(
    file: &NugwierFile<'_>,
    names: &StringTable<'_>,
    name: &[u8],
) -> Option<SectionHeader>
    ensures { result ≡ first_named (loaded_of_c file.now).sections name.now (Some (strings_view names.now)) }
{
    let names = TerminatedStrings::new(names);
    if file.has_sections && file.sections.little && file.sections.is_64 {
        first_in_table(file.sections.bytes, &names, name)
    } else {
        file.first_named(&names, name)
    }
}

// The first section with a name. Not inlined: it fills room for errors.
#[inline(never)]
fn section_named(file: &NugwierFile<'_>, name: &[u8]) -> Result<Option<SectionHeader>, ReadError>
    ensures { result ≡ section_header_by_name (loaded_of_c file.now) name.now }
{
    match reader::section_names::<AnyEndian, _>(file)? {
        Some(names) => {
            let names = TerminatedStrings::new(&names);
            Ok(file.first_named(&names, name))
        }
        None => Ok(None),
    }
}

// Writes the section that was found.
#[inline(always)]
fn write_section(
    header: &Option<SectionHeader>,
    found: &mut bool,
    section: &mut NugwierSection,
) -> NugwierStatus
    ensures status { result ≡ done }
    ensures found { found.new ≡ is_some header.now }
    ensures section { section.new ≡ some_or section.old (option_map section_shown header.now) }
{
    match header {
        Some(header) => {
            *found = true;
            *section = header.show();
        }
        None => {
            *found = false;
        }
    }
    done()
}

/// Finds the first section of a file whose name has exactly these bytes. `found` says whether there is one; if there is
/// none, `section` does not change. An error changes neither; the errors are those of
/// `ElfBytes::section_header_by_name`.
#[unsafe(no_mangle)]
pub extern "C" fn nugwier_section_by_name(
    file: &NugwierFile<'_>,
    name: &[u8],
    found: &mut bool,
    section: &mut NugwierSection,
) -> NugwierStatus
    ensures status { result ≡ read_status (section_header_by_name (loaded_of_c file.now) name.now) }
    ensures found { found.new ≡ written is_some found.old (section_header_by_name (loaded_of_c file.now) name.now) }
    ensures section { section.new ≡ written (some_or section.old) section.old
        (ok_map (option_map section_shown) (section_header_by_name (loaded_of_c file.now) name.now)) }
{
    if let Some(names) = names_quickly(file) {
        return write_section(&first_among(file, &names, name), found, section);
    }
    match section_named(file, name) {
        Ok(header) => write_section(&header, found, section),
        Err(error) => unread(&error),
    }
}
