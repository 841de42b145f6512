//! What a file has for dynamic linking: by its section headers; if it declares none by its segments, as the dynamic
//! linker finds it.
ghost use Rattle.std.specs.Prelude.{◌≡◌, true, IfOk, None};
ghost use Rattle.std.specs.Option.{option_map};
ghost use Rattle.elf.specs.Answers.{relas_left, rels_left, symbols_view};
ghost use Rattle.elf.specs.Parts.{loaded};
ghost use Rattle.elf_dynamic.specs.Linked.{linked_by, place_view};
ghost use Rattle.elf_dynamic.specs.dynamic_view.Entries.{entries_in};
ghost use Rattle.elf_dynamic.specs.dynamic_view.Hashes.{gnu_hash, sysv_hash};
ghost use Rattle.elf_dynamic.specs.dynamic_view.Laws.{FollowsWhole};
ghost use Rattle.elf_dynamic.specs.dynamic_view.Relocations.{plt_left, plt_relocations, relas, relr_bytes, rels};
ghost use Rattle.elf_dynamic.specs.dynamic_view.Symbols.{symbols_with_strings};
ghost use Rattle.elf_dynamic.specs.dynamic_view.Versions.{version_definitions, version_needs, versions};
ghost use Rattle.elf_parts.specs.GnuFind.{gnu_view};
ghost use Rattle.elf_parts.specs.SysvFind.{sysv_view};
ghost use Rattle.elf_parts.specs.gnu_symver.Table.{definitions_view, needs_view, versions_view};
ghost use Rattle.elf_records.specs.Number.{ok_map};
ghost use Rattle.elf_records.specs.Table.{table_view};
ghost use Rattle.nugwier_report.specs.Linked.{linked_symbols, linked_versions};
ghost use Rattle.nugwier_report.specs.Whole.{file_of};
ghost use Rattle.nugwier_report.specs.inner.Linked.{missing_of};

use crate::listed::ListedFile;
use crate::problem::{Fault, Stop};
use crate::reading;
use crate::reading::{FoundSymbols, Symbols};
use elf::dynamic::DynamicTable;
use elf::endian::EndianParse;
use elf::gnu_symver::{EntriesWithStrings, SymbolVersionTable, VerDef, VerNeed};
use elf::hash::{GnuHashTable, SysVHashTable};
use elf::relocation::{RelIterator, RelaIterator};
use elf_dynamic::dynamic_view;
use elf_dynamic::dynamic_view::laws::part_view_as_whole;
use elf_dynamic::dynamic_view::{DynamicError, PltRelocations};
use elf_dynamic::linked::LinkedBy;

/// The versions of the dynamic symbols, if there are any.
pub type FoundVersions<'f, E> = Result<Option<SymbolVersionTable<'f, E>>, Fault>;

// What is found through the segments.
type View<T> = Result<T, DynamicError>;

/// Returns the dynamic symbols, and their strings.
pub fn linked_symbols<'f, E: EndianParse, R: ListedFile<E>>(
    file: &'f R,
) -> Result<FoundSymbols<'f, E>, Stop>
    ensures { IfOk result (λ found. ok_map (option_map symbols_view) found
        ≡ linked_symbols (file_of (R.file file.now) (R.bytes file.now))) }
{
    is_part(file);
    match unless_missing(elf_dynamic::linked::dynamic_symbols(file))? {
        Ok(symbols) => Ok(Ok(symbols)),
        Err(error) => Ok(Err(Fault::Linked(error))),
    }
}

/// Returns the versions of the dynamic symbols.
pub fn linked_versions<'f, E: EndianParse, R: ListedFile<E>>(
    file: &'f R,
) -> Result<FoundVersions<'f, E>, Stop>
    ensures { IfOk result (λ found. ok_map (option_map versions_view) found
        ≡ linked_versions (file_of (R.file file.now) (R.bytes file.now))) }
{
    is_part(file);
    match unless_missing(elf_dynamic::linked::dynamic_versions(file))? {
        Ok(versions) => Ok(Ok(versions)),
        Err(error) => Ok(Err(Fault::Linked(error))),
    }
}

// ---- what the dynamic linker sees

// States that what is seen of the part that is loaded is what is seen of the whole file, or is missing.
fn is_part<E: EndianParse, R: ListedFile<E>>(file: &R)
    ensures { FollowsWhole (λ _. true) (file_of (R.file file.now) (R.bytes file.now))
        (loaded (file_of (R.file file.now) (R.bytes file.now)) (R.ranges file.now)) }
{
    file.is_part_of_whole();
    part_view_as_whole();
}

// What was found, unless bytes are missing.
fn unless_missing<T>(read: View<T>) -> Result<View<T>, Stop>
    ensures found { IfOk result (λ found. read ≡ found) }
    ensures no_missing { IfOk result (λ found. missing_of found ≡ None) }
{
    match read {
        Ok(value) => Ok(Ok(value)),
        Err(DynamicError::Missing(range)) => Err(Stop::Missing(range)),
        Err(error) => Ok(Err(error)),
    }
}

/// Returns what says where a file has what is linked: its section headers, or if it declares none its dynamic entries.
pub fn linked_by<'f, E: EndianParse, R: ListedFile<E>>(
    file: &'f R,
) -> Result<View<LinkedBy<'f, E>>, Stop>
    ensures { IfOk result (λ found. ok_map place_view found
        ≡ linked_by (file_of (R.file file.now) (R.bytes file.now))) }
{
    is_part(file);
    unless_missing(elf_dynamic::linked::linked_by(file))
}

/// Returns the symbols that dynamic entries give, and their strings.
pub fn symbols_by<'f, E: EndianParse, R: ListedFile<E>>(
    file: &'f R,
    table: &DynamicTable<'_, E>,
) -> Result<View<Symbols<'f, E>>, Stop>
    ensures { IfOk result (λ found. ok_map symbols_view found
        ≡ symbols_with_strings (file_of (R.file file.now) (R.bytes file.now)) (entries_in (table_view table.now))) }
{
    is_part(file);
    unless_missing(dynamic_view::symbols_with_strings(file, table))
}

/// Returns the versions that the file defines, of `DT_VERDEF`, and their strings.
pub fn version_definitions<'f, E: EndianParse, R: ListedFile<E>>(
    file: &'f R,
    table: &DynamicTable<'_, E>,
) -> Result<View<Option<EntriesWithStrings<'f, E, VerDef>>>, Stop>
    ensures { IfOk result (λ found. ok_map (option_map definitions_view) found
        ≡ version_definitions (file_of (R.file file.now) (R.bytes file.now)) (entries_in (table_view table.now))) }
{
    is_part(file);
    unless_missing(dynamic_view::version_definitions(file, table))
}

/// Returns the files with needed versions, of `DT_VERNEED`, and their strings.
pub fn version_needs<'f, E: EndianParse, R: ListedFile<E>>(
    file: &'f R,
    table: &DynamicTable<'_, E>,
) -> Result<View<Option<EntriesWithStrings<'f, E, VerNeed>>>, Stop>
    ensures { IfOk result (λ found. ok_map (option_map needs_view) found
        ≡ version_needs (file_of (R.file file.now) (R.bytes file.now)) (entries_in (table_view table.now))) }
{
    is_part(file);
    unless_missing(dynamic_view::version_needs(file, table))
}

/// Returns the SysV hash table, of `DT_HASH`.
pub fn sysv_hash<'f, E: EndianParse, R: ListedFile<E>>(
    file: &'f R,
    table: &DynamicTable<'_, E>,
) -> Result<View<Option<SysVHashTable<'f, E>>>, Stop>
    ensures { IfOk result (λ found. ok_map (option_map sysv_view) found
        ≡ sysv_hash (file_of (R.file file.now) (R.bytes file.now)) (entries_in (table_view table.now))) }
{
    is_part(file);
    unless_missing(dynamic_view::sysv_hash(file, table))
}

/// Returns the GNU hash table, of `DT_GNU_HASH`.
pub fn gnu_hash<'f, E: EndianParse, R: ListedFile<E>>(
    file: &'f R,
    table: &DynamicTable<'_, E>,
) -> Result<View<Option<GnuHashTable<'f, E>>>, Stop>
    ensures { IfOk result (λ found. ok_map (option_map gnu_view) found
        ≡ gnu_hash (file_of (R.file file.now) (R.bytes file.now)) (entries_in (table_view table.now))) }
{
    is_part(file);
    unless_missing(dynamic_view::gnu_hash(file, table))
}

/// Returns the relocations of `DT_REL`.
pub fn rels<'f, E: EndianParse, R: ListedFile<E>>(
    file: &'f R,
    table: &DynamicTable<'_, E>,
) -> Result<View<Option<RelIterator<'f, E>>>, Stop>
    ensures { IfOk result (λ found. ok_map (option_map rels_left) found
        ≡ rels (file_of (R.file file.now) (R.bytes file.now)) (entries_in (table_view table.now))) }
{
    is_part(file);
    unless_missing(dynamic_view::rels(file, table))
}

/// Returns the relocations of `DT_RELA`.
pub fn relas<'f, E: EndianParse, R: ListedFile<E>>(
    file: &'f R,
    table: &DynamicTable<'_, E>,
) -> Result<View<Option<RelaIterator<'f, E>>>, Stop>
    ensures { IfOk result (λ found. ok_map (option_map relas_left) found
        ≡ relas (file_of (R.file file.now) (R.bytes file.now)) (entries_in (table_view table.now))) }
{
    is_part(file);
    unless_missing(dynamic_view::relas(file, table))
}

/// Returns the bytes of the packed relative relocations, of `DT_RELR`.
pub fn relr_bytes<'f, E: EndianParse, R: ListedFile<E>>(
    file: &'f R,
    table: &DynamicTable<'_, E>,
) -> Result<View<Option<&'f [u8]>>, Stop>
    ensures { IfOk result (λ found. ok_map (option_map (λ bytes. bytes.now)) found
        ≡ relr_bytes (file_of (R.file file.now) (R.bytes file.now)) (entries_in (table_view table.now))) }
{
    is_part(file);
    unless_missing(dynamic_view::relr_bytes(file, table))
}

/// Returns the relocations of the procedure linkage table, of `DT_JMPREL`.
pub fn plt_relocations<'f, E: EndianParse, R: ListedFile<E>>(
    file: &'f R,
    table: &DynamicTable<'_, E>,
) -> Result<View<Option<PltRelocations<'f, E>>>, Stop>
    ensures { IfOk result (λ found. ok_map (option_map plt_left) found
        ≡ plt_relocations (file_of (R.file file.now) (R.bytes file.now)) (entries_in (table_view table.now))) }
{
    is_part(file);
    unless_missing(dynamic_view::plt_relocations(file, table))
}
