//! What references bind to.
use crate::row_words::{Words, field_of};
use crate::shown::{Shown, show};
use crate::version_words::VersionBytes;
use elf::endian::AnyEndian;
use elf::file::Class;
use elf::gnu_symver::SymbolVersionTable;
use elf::string_table::StringTable;
use elf::symbol::{Symbol, SymbolTable};
use elf_linking::{
    ReferenceKind, Version, VersionedObject, Wanted, is_definition, is_definition_for,
    reference_kind, version_of,
};
use elf_tools::symbol_versions::symbol_version;
use elfshow::hashcheck::{Checked, HashKind, check_any};

/// `definition INFO OTHER SHNDX VALUE`: whether a symbol with these fields is a definition, and whether it is one for
/// calls, for addresses and for copies.
pub(crate) fn show_definition(rt: &HostRuntime, words: &mut Words<'_>) -> Shown {
    let symbol = Symbol {
        st_name: 0,
        st_info: words.number(),
        st_other: words.number(),
        st_shndx: words.number(),
        st_value: words.number(),
        st_size: 0,
    };
    let is_any = is_definition(&symbol);
    let call = is_definition_for(ReferenceKind::JumpSlot, &symbol);
    let address = is_definition_for(ReferenceKind::Address, &symbol);
    let copy = is_definition_for(ReferenceKind::Copied, &symbol);
    print!(rt; "{is_any} call {call} address {address} copy {copy}")?;
    Ok(())
}

/// `reference_kind MACHINE TYPE`: how a file refers to a symbol by this type of relocation.
pub(crate) fn show_kind(rt: &HostRuntime, words: &mut Words<'_>) -> Shown {
    let kind = reference_kind(words.number(), words.number());
    print!(rt; "{kind:?}")?;
    Ok(())
}

/// `version_of SYMBOL INDEXES COUNT NEEDS STRINGS COUNT DEFINITIONS STRINGS`: the version of a symbol of a 64-bit file in
/// little order by which references bind, and the one that is written after its name.
pub(crate) fn show_version_of(rt: &HostRuntime, words: &mut Words<'_>) -> Shown {
    let symbol = words.number();
    let bytes = VersionBytes::read(rt, AnyEndian::Little, Class::ELF64, words);
    let table = bytes.table();
    show(rt, version_of(&table, symbol))?;
    print!(rt; "; ")?;
    show(rt, symbol_version(&table, symbol))
}

/// `taken WANTED SECTION SYMBOLS STRINGS NAME INDEXES ..`: the symbol that a reference to a name takes in an object with
/// this SysV section, in 64 bits and little order, and with the versions that the last words give as those of
/// `version_of` do, or with none if it ends before them. WANTED is `any`, or `compatible=NAME:HASH` or
/// `only=NAME:HASH`.
pub(crate) fn show_taken(rt: &HostRuntime, words: &mut Words<'_>) -> Shown {
    let wanted = wanted_of(words);
    let section = words.bytes(rt);
    let symbols = words.bytes(rt);
    let strings = words.bytes(rt);
    let name = words.word();
    let (order, class) = (AnyEndian::Little, Class::ELF64);
    let versions = match words.is_over() {
        true => None,
        false => Some(VersionBytes::read(rt, order, class, words)),
    };
    let symbols = SymbolTable::new(order, class, symbols.as_slice());
    let strings = StringTable::new(strings.as_slice());
    match check_any(
        HashKind::Sysv,
        order,
        class,
        section.as_slice(),
        symbols,
        strings,
    ) {
        Ok(Checked::Sound(table)) => {
            let versions = versions.as_ref().map(|bytes| bytes.table());
            show_found(rt, &VersionedObject { table, versions }, name, &wanted)
        }
        _ => Ok(print!(rt; "no sound section")?),
    }
}

fn wanted_of<'a>(words: &mut Words<'a>) -> Wanted<'a> {
    let (kind, version) = field_of(words.word());
    let (name, hash) = version.split_once(':').unwrap_or((version, "0"));
    let hash = words.number_of(hash);
    let version = Version { name, hash };
    match kind {
        "compatible" => Wanted::Compatible(version),
        "only" => Wanted::Only(version),
        _ => Wanted::Any,
    }
}

fn show_found(
    rt: &HostRuntime,
    object: &VersionedObject<'_, AnyEndian, SymbolVersionTable<'_, AnyEndian>>,
    name: &str,
    wanted: &Wanted<'_>,
) -> Shown {
    let found = object.find(name.as_bytes(), wanted);
    show(rt, found.map(|found| found.map(|(index, _)| index)))
}
