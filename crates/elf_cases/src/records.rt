//! Records, and tables of them.
use crate::row_words::Words;
use crate::shown::{Shown, show, show_lines};
use elf::compression::CompressionHeader;
use elf::dynamic::Dyn;
use elf::endian::{AnyEndian, EndianParse};
use elf::file::Class;
use elf::gnu_symver::{VerDef, VerDefAux, VerNeed, VerNeedAux, VersionIndex};
use elf::hash::{GnuHashHeader, SysVHashHeader};
use elf::note::NoteGnuAbiTag;
use elf::parse::{ParseAt, ParsingTable};
use elf::relocation::{Rel, Rela};
use elf::section::SectionHeader;
use elf::segment::ProgramHeader;
use elf::symbol::Symbol;
use std::fmt::Debug;

/// `record KIND ORDER CLASS CALL NUMBER BYTES`, where CALL is
/// `at`: the record at this offset, and the offset afterwards;
/// `get`: the length of the table of the bytes, and its item with this index;
/// `items`: the length of the table, and at most this number of its items;
/// `size`: the size of a record, and whether the number is taken for it.
pub(crate) fn show_record(rt: &HostRuntime, words: &mut Words<'_>) -> Shown {
    let kind = words.word();
    let order = words.order();
    let class = words.class();
    let operation = words.word();
    let n = words.number();
    let data = words.bytes(rt);
    let row = Row {
        order,
        class,
        operation,
        n,
        data: data.as_slice(),
    };
    show_kind(rt, kind, row)
}

/// The arguments of a row for a kind of records.
#[derive(Clone, Copy)]
struct Row<'a> {
    order: AnyEndian,
    class: Class,
    operation: &'a str,
    n: usize,
    data: &'a [u8],
}

fn show_kind(rt: &HostRuntime, kind: &str, row: Row<'_>) -> Shown {
    match kind {
        "SectionHeader" => show_of::<SectionHeader>(rt, row),
        "ProgramHeader" => show_of::<ProgramHeader>(rt, row),
        "Symbol" => show_of::<Symbol>(rt, row),
        "Rel" => show_of::<Rel>(rt, row),
        "Rela" => show_of::<Rela>(rt, row),
        "Dyn" => show_of::<Dyn>(rt, row),
        "CompressionHeader" => show_of::<CompressionHeader>(rt, row),
        "u32" => show_of::<u32>(rt, row),
        "u64" => show_of::<u64>(rt, row),
        "VersionIndex" => show_of::<VersionIndex>(rt, row),
        "VerDef" => show_of::<VerDef>(rt, row),
        "VerDefAux" => show_of::<VerDefAux>(rt, row),
        "VerNeed" => show_of::<VerNeed>(rt, row),
        "VerNeedAux" => show_of::<VerNeedAux>(rt, row),
        "SysVHashHeader" => show_of::<SysVHashHeader>(rt, row),
        "GnuHashHeader" => show_of::<GnuHashHeader>(rt, row),
        "NoteGnuAbiTag" => show_of::<NoteGnuAbiTag>(rt, row),
        _ => Ok(print!(rt; "no such record")?),
    }
}

fn show_of<P: ParseAt + Debug + Drop>(rt: &HostRuntime, row: Row<'_>) -> Shown {
    let table = ParsingTable::<'_, AnyEndian, P>::new(row.order, row.class, row.data);
    match row.operation {
        "at" => {
            let mut offset = row.n;
            show(rt, P::parse_at(row.order, row.class, &mut offset, row.data))?;
            Ok(print!(rt; " offset {offset}")?)
        }
        "size" => {
            print!(rt; "{}; ", P::size_for(row.class))?;
            show(rt, P::validate_entsize(row.class, row.n))
        }
        "get" => {
            print!(rt; "of {} ", table.len())?;
            show(rt, table.get(row.n))
        }
        _ => show_items(rt, &table, row.n),
    }
}

/// How many records a table says that it has, and those that it gives.
pub(crate) fn show_items<E: EndianParse, P: ParseAt + Debug + Drop>(
    rt: &HostRuntime,
    table: &ParsingTable<'_, E, P>,
    most: usize,
) -> Shown {
    let length = table.len();
    let is_empty = table.is_empty();
    print!(rt; "{length} empty {is_empty}")?;
    show_lines(rt, table.iter().take(most))
}

/// `parts KIND ORDER CLASS BYTES`: what the methods of the record at the front of the bytes return.
pub(crate) fn show_parts(rt: &HostRuntime, words: &mut Words<'_>) -> Shown {
    let kind = words.word();
    let order = words.order();
    let class = words.class();
    let data = words.bytes(rt);
    let data = data.as_slice();
    match kind {
        "Symbol" => {
            let symbol = Symbol::parse_at(order, class, &mut 0, data)?;
            let undefined = symbol.is_undefined();
            let (kind, bind, vis) = (symbol.st_symtype(), symbol.st_bind(), symbol.st_vis());
            print!(rt; "undefined {undefined} type {kind} bind {bind} vis {vis}")?;
        }
        "Dyn" => {
            let entry = Dyn::parse_at(order, class, &mut 0, data)?;
            let (tag, value, address) = (entry.d_tag, entry.d_val(), entry.d_ptr());
            print!(rt; "tag {tag} val {value} ptr {address}")?;
        }
        _ => {
            let version = VersionIndex::parse_at(order, class, &mut 0, data)?;
            let (index, local) = (version.index(), version.is_local());
            let (global, hidden) = (version.is_global(), version.is_hidden());
            print!(rt; "index {index} local {local} global {global} hidden {hidden}")?;
        }
    }
    Ok(())
}
