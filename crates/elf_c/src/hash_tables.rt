//! Hash sections that were opened, and look-ups in them, which do not open them anew.
ghost use Rattle.std.specs.Prelude.{◌≡◌};
ghost use Rattle.elf_parts.specs.GnuFind.{gnu_find, gnu_section, gnu_view};
ghost use Rattle.elf_parts.specs.SysvFind.{sysv_find, sysv_section, sysv_view};
ghost use Rattle.elf_records.specs.Number.{ok_map};
ghost use Rattle.elf_c.specs.Find.{found_shown};
ghost use Rattle.elf_c.specs.HashTables.{gnu_of_c, sysv_of_c};
ghost use Rattle.elf_c.specs.Status.{IsWritten, status_of, written};
ghost use Rattle.elf_c.specs.Tables.{class_in, table_of_c};

use crate::find::{NugwierFound, write_answer, write_found};
use crate::status::{NugwierStatus, done, refused};
use crate::table::{NugwierTable, class_in, order_in, records_in};
use elf_parts::endian::{EndianParse, LittleEndian};
use elf_parts::file::Class;
use elf_parts::hash::{GnuHashHeader, GnuHashTable, SysVHashTable};
use elf_parts::parse::ParseError;
use elf_parts::string_table::StringTable;
use elf_parts::symbol::SymbolTable;

/// A GNU hash section that was opened: the numbers of its header, its bloom words, the words of its buckets, and its
/// chain words. It belongs to the caller, and holds nothing that has to be freed.
#[repr(C)]
#[derive(Default, Drop)]
pub struct NugwierGnu<'data> {
    pub little: bool,
    pub is_64: bool,
    pub nbucket: u32,
    pub first: u32,
    pub nbloom: u32,
    pub nshift: u32,
    pub bloom: &'data [u8],
    pub buckets: &'data [u8],
    pub chains: &'data [u8],
}

/// A SysV hash section that was opened: the words of its buckets, and its chain words. It belongs to the caller, and
/// holds nothing that has to be freed.
#[repr(C)]
#[derive(Default, Drop)]
pub struct NugwierSysv<'data> {
    pub little: bool,
    pub is_64: bool,
    pub buckets: &'data [u8],
    pub chains: &'data [u8],
}

// The parts of a GNU hash section.
#[tactic(auto, using(crate::proofs::HashTables::gnu_own, crate::proofs::Files::is_little_in))]
pub(crate) fn gnu_opened<'data>(
    little: bool,
    is_64: bool,
    section: &'data [u8],
) -> Result<NugwierGnu<'data>, ParseError>
    ensures { ok_map gnu_of_c result ≡ gnu_section little (class_in is_64) section.now }
{
    let table = GnuHashTable::new(order_in(little), class_in(is_64), section)?;
    Ok(NugwierGnu {
        little,
        is_64,
        nbucket: table.hdr.nbucket,
        first: table.hdr.table_start_idx,
        nbloom: table.hdr.nbloom,
        nshift: table.hdr.nshift,
        bloom: table.bloom(),
        buckets: table.buckets().bytes(),
        chains: table.chains().bytes(),
    })
}

// The parts of a SysV hash section.
#[tactic(auto, using(crate::proofs::HashTables::sysv_own, crate::proofs::Files::is_little_in))]
pub(crate) fn sysv_opened<'data>(
    little: bool,
    is_64: bool,
    section: &'data [u8],
) -> Result<NugwierSysv<'data>, ParseError>
    ensures { ok_map sysv_of_c result ≡ sysv_section little (class_in is_64) section.now }
{
    let table = SysVHashTable::new(order_in(little), class_in(is_64), section)?;
    Ok(NugwierSysv {
        little,
        is_64,
        buckets: table.buckets().bytes(),
        chains: table.chains().bytes(),
    })
}

/// Opens a GNU hash section: reads its header, and finds its parts. An error leaves `gnu` as it is; the errors are those
/// of `GnuHashTable::new`.
#[unsafe(no_mangle)]
pub extern "C" fn nugwier_gnu_open<'data>(
    little: bool,
    is_64: bool,
    section: &'data [u8],
    gnu: &mut NugwierGnu<'data>,
) -> NugwierStatus
    ensures status { result ≡ status_of (gnu_section little (class_in is_64) section.now) }
    ensures gnu { IsWritten gnu_of_c gnu.new gnu.old (gnu_section little (class_in is_64) section.now) }
{
    match gnu_opened(little, is_64, section) {
        Ok(found) => {
            *gnu = found;
            done()
        }
        Err(error) => refused(&error),
    }
}

/// Opens a SysV hash section: reads its header, and finds its parts. An error leaves `sysv` as it is; the errors are
/// those of `SysVHashTable::new`.
#[unsafe(no_mangle)]
pub extern "C" fn nugwier_sysv_open<'data>(
    little: bool,
    is_64: bool,
    section: &'data [u8],
    sysv: &mut NugwierSysv<'data>,
) -> NugwierStatus
    ensures status { result ≡ status_of (sysv_section little (class_in is_64) section.now) }
    ensures sysv { IsWritten sysv_of_c sysv.new sysv.old (sysv_section little (class_in is_64) section.now) }
{
    match sysv_opened(little, is_64, section) {
        Ok(found) => {
            *sysv = found;
            done()
        }
        Err(error) => refused(&error),
    }
}

// The table whose parts a handle holds. A caller can state the byte order and the class, so that the compiler knows
// them.
#[inline(always)]
fn gnu_table<'data, E: EndianParse>(
    endian: E,
    class: Class,
    gnu: &NugwierGnu<'data>,
) -> GnuHashTable<'data, E>
    requires order { E.little endian ≡ gnu.now.little }
    requires class { class ≡ class_in gnu.now.is_64 }
    ensures { gnu_view result ≡ gnu_of_c gnu.now }
{
    let hdr = GnuHashHeader {
        nbucket: gnu.nbucket,
        table_start_idx: gnu.first,
        nbloom: gnu.nbloom,
        nshift: gnu.nshift,
    };
    GnuHashTable::from_parts(endian, class, hdr, gnu.bloom, gnu.buckets, gnu.chains)
}

// The same of a SysV hash section.
#[inline(always)]
fn sysv_table<'data, E: EndianParse>(
    endian: E,
    class: Class,
    sysv: &NugwierSysv<'data>,
) -> SysVHashTable<'data, E>
    requires order { E.little endian ≡ sysv.now.little }
    requires class { class ≡ class_in sysv.now.is_64 }
    ensures { sysv_view result ≡ sysv_of_c sysv.now }
{
    SysVHashTable::from_parts(endian, class, sysv.buckets, sysv.chains)
}

// Looks a name up in a GNU hash section of any file, and writes what was found. Not inlined: it fills much room for
// errors. In a 64-bit little-endian file it is called for an error alone: what else is looked up there is found with a
// byte order and a class that are known to the compiler.
#[inline(never)]
fn write_from_gnu(
    gnu: &NugwierGnu<'_>,
    symbols: &NugwierTable<'_>,
    strings: &[u8],
    name: &[u8],
    found: &mut NugwierFound,
) -> NugwierStatus
    ensures status { result ≡ status_of (gnu_find (gnu_of_c gnu.now) (table_of_c symbols.now) strings.now name.now) }
    ensures found { found.new ≡ written found_shown found.old
        (gnu_find (gnu_of_c gnu.now) (table_of_c symbols.now) strings.now name.now) }
{
    let table = gnu_table(order_in(gnu.little), class_in(gnu.is_64), gnu);
    let answer = table.find(name, &records_in(symbols), &StringTable::new(strings));
    write_found(&answer, found)
}

// The same in a SysV hash section.
#[inline(never)]
fn write_from_sysv(
    sysv: &NugwierSysv<'_>,
    symbols: &NugwierTable<'_>,
    strings: &[u8],
    name: &[u8],
    found: &mut NugwierFound,
) -> NugwierStatus
    ensures status { result ≡ status_of (sysv_find (sysv_of_c sysv.now) (table_of_c symbols.now) strings.now name.now) }
    ensures found { found.new ≡ written found_shown found.old
        (sysv_find (sysv_of_c sysv.now) (table_of_c symbols.now) strings.now name.now) }
{
    let table = sysv_table(order_in(sysv.little), class_in(sysv.is_64), sysv);
    let answer = table.find(name, &records_in(symbols), &StringTable::new(strings));
    write_found(&answer, found)
}

/// Looks a name up in a GNU hash section that was opened, for these symbols and their strings. An error leaves `found`
/// as it is; the errors are those of `GnuHashTable::find`.
#[unsafe(no_mangle)]
pub extern "C" fn nugwier_gnu_look_up(
    gnu: &NugwierGnu<'_>,
    symbols: &NugwierTable<'_>,
    strings: &[u8],
    name: &[u8],
    found: &mut NugwierFound,
) -> NugwierStatus
    ensures status { result ≡ status_of (gnu_find (gnu_of_c gnu.now) (table_of_c symbols.now) strings.now name.now) }
    ensures found { found.new ≡ written found_shown found.old
        (gnu_find (gnu_of_c gnu.now) (table_of_c symbols.now) strings.now name.now) }
{
    if gnu.little && gnu.is_64 && symbols.little && symbols.is_64 {
        let table = gnu_table(LittleEndian, Class::ELF64, gnu);
        let symtab = SymbolTable::new(LittleEndian, Class::ELF64, symbols.bytes);
        if let Some(answer) = table.find_quickly(name, &symtab, &StringTable::new(strings)) {
            return write_answer(answer, found);
        }
    }
    write_from_gnu(gnu, symbols, strings, name, found)
}

/// Looks a name up in a SysV hash section that was opened, for these symbols and their strings. An error leaves `found`
/// as it is; the errors are those of `SysVHashTable::find`.
#[unsafe(no_mangle)]
pub extern "C" fn nugwier_sysv_look_up(
    sysv: &NugwierSysv<'_>,
    symbols: &NugwierTable<'_>,
    strings: &[u8],
    name: &[u8],
    found: &mut NugwierFound,
) -> NugwierStatus
    ensures status { result ≡ status_of (sysv_find (sysv_of_c sysv.now) (table_of_c symbols.now) strings.now name.now) }
    ensures found { found.new ≡ written found_shown found.old
        (sysv_find (sysv_of_c sysv.now) (table_of_c symbols.now) strings.now name.now) }
{
    if sysv.little && sysv.is_64 && symbols.little && symbols.is_64 {
        let table = sysv_table(LittleEndian, Class::ELF64, sysv);
        let symtab = SymbolTable::new(LittleEndian, Class::ELF64, symbols.bytes);
        if let Some(answer) = table.find_quickly(name, &symtab, &StringTable::new(strings)) {
            return write_answer(answer, found);
        }
    }
    write_from_sysv(sysv, symbols, strings, name, found)
}
