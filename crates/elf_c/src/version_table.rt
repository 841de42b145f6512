//! The versions of the symbols of a file, at the ranges that its headers give.
ghost use Rattle.std.specs.Prelude.{◌≡◌, IfOk, IfSome, false};
ghost use Rattle.std.specs.Option.{option_map};
ghost use Rattle.elf_records.specs.Number.{ok_map};
ghost use Rattle.elf.specs.Answers.{symbol_version_table};
ghost use Rattle.elf.specs.Headers.{if_found};
ghost use Rattle.elf.specs.Versions.{version_definitions, version_needs, versions_of};
ghost use Rattle.elf_c.specs.Loaded.{loaded_of_c};
ghost use Rattle.elf_c.specs.Status.{IsWrittenIf, read_status};
ghost use Rattle.elf_c.specs.Versions.{HasNoEntries, MissingAreEmpty, definitions_of_c, needs_of_c, no_versions_in};
ghost use Rattle.elf_c.specs.Versions.{versions_of_c, versions_view_of_c};

use crate::data::table_in;
use crate::file::NugwierFile;
use crate::status::{NugwierStatus, done, unread};
use crate::table::table_shown;
use crate::versions::{NugwierEntries, NugwierVersions};
use elf::headers::{Headers, VersionSections};
use elf::{ReadError, reader};
use elf_parts::endian::AnyEndian;
use elf_parts::section::SectionHeader;

// The needs or the definitions, if there is a section of them.
fn entries_if<'data>(
    file: &'data NugwierFile<'data>,
    shdr: Option<SectionHeader>,
) -> Result<NugwierEntries<'data>, ReadError>
    ensures needs { ok_map needs_of_c result ≡ if_found (version_needs (loaded_of_c file.now)) shdr }
    ensures definitions { ok_map definitions_of_c result
        ≡ if_found (version_definitions (loaded_of_c file.now)) shdr }
    ensures missing { IfOk result (λ e. e.found ≡ false → HasNoEntries file.now e) }
{
    let Some(shdr) = shdr else {
        return Ok(NugwierEntries {
            found: false,
            count: 0,
            entries: table_in(file, &[]),
            strings: &[],
        });
    };
    let bytes = reader::section_part::<AnyEndian, _>(file, &shdr)?;
    let strings = reader::linked_strings::<AnyEndian, _>(file, &shdr)?;
    Ok(NugwierEntries {
        found: true,
        count: shdr.sh_info as u64,
        entries: table_in(file, bytes),
        strings,
    })
}

// The versions by the indexes of a section.
fn versions_of<'data>(
    file: &'data NugwierFile<'data>,
    chosen: VersionSections,
    shdr: &SectionHeader,
) -> Result<NugwierVersions<'data>, ReadError>
    ensures found { ok_map versions_of_c result ≡ versions_of (loaded_of_c file.now) chosen shdr.now }
    ensures missing { IfOk result (λ v. MissingAreEmpty file.now v) }
{
    let indexes = reader::version_indexes::<AnyEndian, _>(file, shdr)?;
    let needs = entries_if(file, chosen.needs)?;
    let definitions = entries_if(file, chosen.definitions)?;
    Ok(NugwierVersions {
        found: true,
        indexes: table_shown(&indexes),
        needs,
        definitions,
    })
}

// The versions of the symbols of a file.
fn versions_in<'data>(
    file: &'data NugwierFile<'data>,
) -> Result<Option<NugwierVersions<'data>>, ReadError>
    ensures found { ok_map (option_map versions_of_c) result ≡ symbol_version_table (loaded_of_c file.now) }
    ensures missing { IfOk result (λ found. IfSome found (λ v. MissingAreEmpty file.now v)) }
{
    let chosen = file.version_sections();
    match chosen.indexes {
        Some(shdr) => {
            let found = versions_of(file, chosen, &shdr)?;
            Ok(Some(found))
        }
        None => Ok(None),
    }
}

/// Finds the versions of the symbols of a file. If there are none, `found` is false, and nothing else is written. An
/// error leaves `versions` as it is; the errors are those of `ElfBytes::symbol_version_table`.
#[unsafe(no_mangle)]
pub extern "C" fn nugwier_version_table<'data>(
    file: &'data NugwierFile<'data>,
    versions: &mut NugwierVersions<'data>,
) -> NugwierStatus
    ensures status { result ≡ read_status (symbol_version_table (loaded_of_c file.now)) }
    ensures versions { IsWrittenIf versions_view_of_c no_versions_in versions.new versions.old
        (symbol_version_table (loaded_of_c file.now)) }
    ensures missing { IfOk (symbol_version_table (loaded_of_c file.now))
        (λ found. IfSome found (λ _. MissingAreEmpty file.now versions.new)) }
{
    match versions_in(file) {
        Ok(Some(found)) => {
            *versions = found;
            versions.found = true;
            done()
        }
        Ok(None) => {
            versions.found = false;
            done()
        }
        Err(error) => unread(&error),
    }
}
