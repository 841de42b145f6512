//! What is looked up most often, found in one pass over the sections.
ghost use Rattle.std.specs.Prelude.{◌≡◌, IfOk, [], true};
ghost use Rattle.elf.specs.Answers.{symbols_of};
ghost use Rattle.elf.specs.Common.{common_of_sections, common_part, find_common_data, last_of_each};
ghost use Rattle.elf.specs.inner.Passes.{with_part};
ghost use Rattle.elf_records.specs.Number.{ok_map};
ghost use Rattle.elf_c.specs.Common.{MissingAreEmpty, common_of_c};
ghost use Rattle.elf_c.specs.Loaded.{loaded_of_c};
ghost use Rattle.elf_c.specs.Status.{IsWritten, read_status};
ghost use Rattle.elf_c.specs.Symbols.{symbols_pair};

use crate::file::NugwierFile;
use crate::hash_tables::{NugwierGnu, NugwierSysv, gnu_opened, sysv_opened};
use crate::status::{NugwierStatus, done, unread};
use crate::symbols::{NugwierDynamicTable, NugwierSymbolTable, dynamics_shown};
use crate::table::{records_in, table_shown};
use elf::headers::Headers;
use elf::{ReadError, abi, reader};
use elf_parts::endian::AnyEndian;
use elf_parts::section::SectionHeader;

/// The symbols, the dynamic entries and the hash sections of a file, each if the file has it. A hash section is opened.
/// What the file does not have is empty: each number is 0, each `bool` is false, and there are no bytes.
#[repr(C)]
#[derive(Default, Drop)]
pub struct NugwierCommon<'data> {
    pub symbols: NugwierSymbolTable<'data>,
    pub dynamic_symbols: NugwierSymbolTable<'data>,
    pub dynamics: NugwierDynamicTable<'data>,
    pub has_sysv: bool,
    pub has_gnu: bool,
    pub sysv: NugwierSysv<'data>,
    pub gnu: NugwierGnu<'data>,
}

// What is found in no sections.
fn nothing() -> NugwierCommon<'static>
    ensures found { common_of_c result ≡ last_of_each [] }
    ensures missing { MissingAreEmpty result }
{
    NugwierCommon::default()
}

// The symbols of a section, with their strings.
fn symbols_of<'data>(
    file: &'data NugwierFile<'data>,
    shdr: &SectionHeader,
) -> Result<NugwierSymbolTable<'data>, ReadError>
    ensures value { ok_map symbols_pair result ≡ symbols_of (loaded_of_c file.now) shdr.now }
    ensures found { IfOk result (λ s. s.found ≡ true) }
{
    let (symbols, strings) = reader::symbols_of::<AnyEndian, _>(file, shdr)?;
    Ok(NugwierSymbolTable {
        found: true,
        symbols: table_shown(&symbols),
        strings: strings.bytes(),
    })
}

// Writes what a section holds over what was found before.
#[tactic(auto, using(crate::proofs::Files::is_little_in))]
fn add_section<'data>(
    file: &'data NugwierFile<'data>,
    shdr: &SectionHeader,
    found: &mut NugwierCommon<'data>,
) -> Result<(), ReadError>
    requires { MissingAreEmpty found.old }
    ensures found { ok_map (λ _. common_of_c found.new) result
        ≡ ok_map (with_part (common_of_c found.old)) (common_part (loaded_of_c file.now) shdr.now) }
    ensures missing { MissingAreEmpty found.new }
{
    match shdr.sh_type {
        abi::SHT_SYMTAB => {
            found.symbols = symbols_of(file, shdr)?;
        }
        abi::SHT_DYNSYM => {
            found.dynamic_symbols = symbols_of(file, shdr)?;
        }
        abi::SHT_DYNAMIC => {
            let entries = reader::section_dynamic::<AnyEndian, _>(file, shdr)?;
            found.dynamics = dynamics_shown(&entries);
        }
        abi::SHT_HASH => {
            let bytes = reader::section_part::<AnyEndian, _>(file, shdr)?;
            found.sysv = sysv_opened(file.header.little, file.header.is_64, bytes)?;
            found.has_sysv = true;
        }
        abi::SHT_GNU_HASH => {
            let bytes = reader::section_part::<AnyEndian, _>(file, shdr)?;
            found.gnu = gnu_opened(file.header.little, file.header.is_64, bytes)?;
            found.has_gnu = true;
        }
        _ => {}
    }
    Ok(())
}

// What the sections hold.
#[tactic(auto, using(elf::proofs::CommonPass::common_in_all, elf::proofs::CommonPass::common_of_none))]
fn common_of_sections<'data>(
    file: &'data NugwierFile<'data>,
) -> Result<NugwierCommon<'data>, ReadError>
    ensures found { ok_map common_of_c result ≡ common_of_sections (loaded_of_c file.now) }
    ensures missing { IfOk result (λ found. MissingAreEmpty found) }
{
    let mut found = nothing();
    if !file.has_sections {
        return Ok(found);
    }
    for shdr in records_in::<SectionHeader>(&file.sections) {
        add_section(file, &shdr, &mut found)?;
    }
    Ok(found)
}

// The same, with the dynamic entries of a segment if no section has any.
fn common_in<'data>(file: &'data NugwierFile<'data>) -> Result<NugwierCommon<'data>, ReadError>
    ensures found { ok_map common_of_c result ≡ find_common_data (loaded_of_c file.now) }
    ensures missing { IfOk result (λ found. MissingAreEmpty found) }
{
    let mut found = common_of_sections(file)?;
    if !found.dynamics.found
        && let Some(phdr) = file.first_segment_of(abi::PT_DYNAMIC)
    {
        let entries = reader::segment_dynamic::<AnyEndian, _>(file, &phdr)?;
        found.dynamics = dynamics_shown(&entries);
    }
    Ok(found)
}

/// Finds the symbols, the dynamic entries and the hash sections of a file in one pass over its sections. Each comes from
/// the last section of its type; if no section has dynamic entries, they are those of the first segment of type
/// `PT_DYNAMIC`. An error leaves `common` as it is; the errors are those of `ElfBytes::find_common_data`.
#[unsafe(no_mangle)]
pub extern "C" fn nugwier_common<'data>(
    file: &'data NugwierFile<'data>,
    common: &mut NugwierCommon<'data>,
) -> NugwierStatus
    ensures status { result ≡ read_status (find_common_data (loaded_of_c file.now)) }
    ensures common { IsWritten common_of_c common.new common.old (find_common_data (loaded_of_c file.now)) }
    ensures missing { IfOk (find_common_data (loaded_of_c file.now)) (λ _. MissingAreEmpty common.new) }
{
    match common_in(file) {
        Ok(found) => {
            *common = found;
            done()
        }
        Err(error) => unread(&error),
    }
}
