//! Hashes of names, and hash sections.
use crate::row_words::{Words, field_of};
use crate::shown::{Shown, show};
use elf::hash::{GnuHashHeader, GnuHashTable, SysVHashTable, gnu_hash, sysv_hash};
use elf::string_table::StringTable;
use elf::symbol::SymbolTable;

/// `hash BYTES`: both hashes.
pub(crate) fn show_hashes(rt: &HostRuntime, words: &mut Words<'_>) -> Shown {
    let name = words.bytes(rt);
    let sysv = sysv_hash(name.as_slice());
    let gnu = gnu_hash(name.as_slice());
    print!(rt; "sysv {sysv} gnu {gnu}")?;
    Ok(())
}

/// `find KIND ORDER CLASS NAME SECTION SYMBOLS STRINGS SET..`: what the section finds for the name, or the error. A
/// SET, as `nbloom=2`, changes a field of the header of a GNU hash table.
pub(crate) fn show_find(rt: &HostRuntime, words: &mut Words<'_>) -> Shown {
    let kind = words.word();
    let order = words.order();
    let class = words.class();
    let name = words.bytes(rt);
    let section = words.bytes(rt);
    let symbols = words.bytes(rt);
    let strings = words.bytes(rt);
    let symbols = SymbolTable::new(order, class, symbols.as_slice());
    let strings = StringTable::new(strings.as_slice());
    if kind == "sysv" {
        let table = SysVHashTable::new(order, class, section.as_slice())?;
        return show(rt, table.find(name.as_slice(), &symbols, &strings));
    }
    let mut table = GnuHashTable::new(order, class, section.as_slice())?;
    set_fields(&mut table.hdr, words);
    show(rt, table.find(name.as_slice(), &symbols, &strings))
}

fn set_fields(hdr: &mut GnuHashHeader, words: &mut Words<'_>) {
    for set in words.rest() {
        let (field, value) = field_of(set);
        let value = words.number_of(value);
        match field {
            "nbucket" => hdr.nbucket = value,
            "first" => hdr.table_start_idx = value,
            "nbloom" => hdr.nbloom = value,
            _ => hdr.nshift = value,
        }
    }
}
