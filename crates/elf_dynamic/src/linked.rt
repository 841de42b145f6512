//! What links a file: its dynamic symbols, their versions and its hash section, and what says where these and its
//! relocations are: its section headers; if it declares none its dynamic entries, as for the dynamic linker.
ghost use Rattle.std.specs.Prelude.{◌≡◌};
ghost use Rattle.std.specs.Option.{option_map};
ghost use Rattle.elf.specs.Answers.{symbols_view};
ghost use Rattle.elf.specs.Parts.{loaded};
ghost use Rattle.elf_dynamic.specs.Linked.{dynamic_symbols, dynamic_versions, entry_hash, gnu_bytes, hash_section};
ghost use Rattle.elf_dynamic.specs.Linked.{hash_view, linked_by, place_view, section_hash};
ghost use Rattle.elf_dynamic.specs.dynamic_view.Entries.{entries_in};
ghost use Rattle.elf_parts.specs.GnuFind.{gnu_view};
ghost use Rattle.elf_parts.specs.gnu_symver.Table.{versions_view};
ghost use Rattle.elf_records.specs.Number.{ok_map};
ghost use Rattle.elf_records.specs.Table.{table_view};

use crate::dynamic_view;
use crate::dynamic_view::{
    DynamicError, address_size, dynamic_table, symbols_with_strings, versions,
};
use elf::dynamic::DynamicTable;
use elf::endian::EndianParse;
use elf::gnu_symver::SymbolVersionTable;
use elf::hash::GnuHashTable;
use elf::reader::{Reader, dynamic_symbol_table, section_data, symbol_version_table};
use elf::string_table::StringTable;
use elf::symbol::SymbolTable;
use elf::{ReadError, abi};
use elf_hash_check::hashcheck::HashKind;

/// What says where a file has what is linked.
#[derive(Debug, Drop)]
pub enum LinkedBy<'data, E: EndianParse> {
    /// Its section headers.
    Sections,
    /// Its dynamic entries, since it declares no section headers.
    Entries(DynamicTable<'data, E>),
    /// It declares no section headers, and has no dynamic entries.
    Nothing,
}

/// Returns what says where a file has what is linked.
///
/// Errors: those of `dynamic_table`, only of a file that declares no section headers.
pub fn linked_by<'f, E: EndianParse, R: Reader<E>>(
    file: &'f R,
) -> Result<LinkedBy<'f, E>, DynamicError>
    ensures { ok_map place_view result ≡ linked_by (loaded (R.file file.now) (R.ranges file.now)) }
{
    if file.declares_sections() {
        return Ok(LinkedBy::Sections);
    }
    match dynamic_table(file)? {
        Some(entries) => Ok(LinkedBy::Entries(entries)),
        None => Ok(LinkedBy::Nothing),
    }
}

/// Returns the dynamic symbols with their strings, or `None` if the file has none: those of `dynamic_symbol_table` or, if it
/// declares no section headers, of `dynamic_view::symbols_with_strings`.
///
/// Errors: `Read` with that of `dynamic_symbol_table`; of a file that declares no section headers those of `dynamic_table`,
/// then those of `symbols_with_strings`. `Missing` if bytes lie in the file and are not loaded.
///
/// ```rust
/// if let Some((symbols, strings)) = dynamic_symbols(&file)? {
///     let size = strings.bytes().len();
///     println!(rt; "{} symbols, {size} bytes of names", symbols.len())?;
/// }
/// ```
pub fn dynamic_symbols<'f, E: EndianParse, R: Reader<E>>(
    file: &'f R,
) -> Result<Option<(SymbolTable<'f, E>, StringTable<'f>)>, DynamicError>
    ensures { ok_map (option_map symbols_view) result ≡ dynamic_symbols (loaded (R.file file.now) (R.ranges file.now)) }
{
    match linked_by(file)? {
        LinkedBy::Sections => {
            let symbols = dynamic_symbol_table(file)?;
            Ok(symbols)
        }
        LinkedBy::Entries(entries) => symbols_with_strings(file, &entries).map(Some),
        LinkedBy::Nothing => Ok(None),
    }
}

/// Returns the versions of the dynamic symbols, or `None` if the file has none: those of `symbol_version_table` or, if it
/// declares no section headers, of `dynamic_view::versions`. The errors are those of `dynamic_symbols`, with these functions.
pub fn dynamic_versions<'f, E: EndianParse, R: Reader<E>>(
    file: &'f R,
) -> Result<Option<SymbolVersionTable<'f, E>>, DynamicError>
    ensures { ok_map (option_map versions_view) result ≡ dynamic_versions (loaded (R.file file.now) (R.ranges file.now)) }
{
    match linked_by(file)? {
        LinkedBy::Sections => {
            let versions = symbol_version_table(file)?;
            Ok(versions)
        }
        LinkedBy::Entries(entries) => versions(file, &entries),
        LinkedBy::Nothing => Ok(None),
    }
}

/// A hash section by its kind, and its bytes.
pub type HashBytes<'data> = (HashKind, &'data [u8]);

// The first section of type SHT_GNU_HASH, or if there is none the first of type SHT_HASH.
fn section_hash<'f, E: EndianParse, R: Reader<E>>(
    file: &'f R,
) -> Result<Option<HashBytes<'f>>, ReadError>
    ensures { ok_map (option_map hash_view) result ≡ section_hash (loaded (R.file file.now) (R.ranges file.now)) }
{
    if let Some(section) = file.first_section_of(abi::SHT_GNU_HASH) {
        let (bytes, _) = section_data(file, &section)?;
        return Ok(Some((HashKind::Gnu, bytes)));
    }
    if let Some(section) = file.first_section_of(abi::SHT_HASH) {
        let (bytes, _) = section_data(file, &section)?;
        return Ok(Some((HashKind::Sysv, bytes)));
    }
    Ok(None)
}

// The bytes of the GNU hash section with this table: the header, the bloom words, the buckets, and the chain words of its
// symbols.
fn gnu_bytes<'f, E: EndianParse, R: Reader<E>>(
    file: &'f R,
    entries: &DynamicTable<'_, E>,
    table: &GnuHashTable<'_, E>,
) -> Result<&'f [u8], DynamicError>
    ensures { ok_map (λ bytes. bytes.now) result ≡ gnu_bytes (loaded (R.file file.now) (R.ranges file.now))
        (entries_in (table_view entries.now)) (gnu_view table.now) }
{
    let address = dynamic_view::required(entries, abi::DT_GNU_HASH)?;
    let size = 16
        + table.hdr.nbloom as u64 * address_size(file.class())
        + 4 * table.hdr.nbucket as u64
        + table.chains().bytes().len() as u64;
    dynamic_view::bytes_of(file, address, size)
}

// The hash section that the entries give: that of DT_GNU_HASH, or if there is none that of DT_HASH.
fn entry_hash<'f, E: EndianParse, R: Reader<E>>(
    file: &'f R,
    entries: &DynamicTable<'_, E>,
) -> Result<Option<HashBytes<'f>>, DynamicError>
    ensures { ok_map (option_map hash_view) result
        ≡ entry_hash (loaded (R.file file.now) (R.ranges file.now)) (entries_in (table_view entries.now)) }
{
    if let Some(table) = dynamic_view::gnu_hash(file, entries)? {
        let bytes = gnu_bytes(file, entries, &table)?;
        return Ok(Some((HashKind::Gnu, bytes)));
    }
    match dynamic_view::value(entries, abi::DT_HASH) {
        Some(address) => {
            let bytes = dynamic_view::bytes_from(file, address)?;
            Ok(Some((HashKind::Sysv, bytes)))
        }
        None => Ok(None),
    }
}

/// Returns the hash section in which the dynamic linker looks symbols up, or `None` if the file has none: the GNU section,
/// or if there is none the SysV section. By its dynamic entries a SysV section is given with the bytes after it in its
/// segment: how long it is only its header says.
///
/// Errors: `Read` with that of `section_data`; of a file that declares no section headers those of `dynamic_table`, then
/// those of `dynamic_view::gnu_hash` and of `dynamic_view::bytes_of` or `dynamic_view::bytes_from`. `Missing` if bytes lie
/// in the file and are not loaded.
pub fn hash_section<'f, E: EndianParse, R: Reader<E>>(
    file: &'f R,
) -> Result<Option<HashBytes<'f>>, DynamicError>
    ensures { ok_map (option_map hash_view) result ≡ hash_section (loaded (R.file file.now) (R.ranges file.now)) }
{
    match linked_by(file)? {
        LinkedBy::Sections => {
            let section = section_hash(file)?;
            Ok(section)
        }
        LinkedBy::Entries(entries) => entry_hash(file, &entries),
        LinkedBy::Nothing => Ok(None),
    }
}
