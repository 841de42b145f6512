//! What is said of relocations.
#![tactic(auto, using(nugwier_report::proofs::Saying::saying_both, nugwier_report::proofs::Parts::said_parts))]

ghost use Rattle.std.specs.Prelude.{◌≡◌, ◌∷◌, ◌++◌, [], IfOk, OnOk, Some};
ghost use Rattle.std.specs.List.{flat_map};
ghost use Rattle.std.specs.Option.{option_copied, option_map};
ghost use Rattle.std.specs.Result.{result_ok};
ghost use Rattle.elf_dynamic.specs.Relr.{addresses_left};
ghost use Rattle.elf_records.specs.Number.{ok_map};
ghost use Rattle.nugwier_report.specs.Labels.{named_by};
ghost use Rattle.nugwier_layouts.specs.Members.{content_of, members_said};
ghost use Rattle.nugwier_symbols.specs.RelocationRows.{addend_of, info_of, is_mips_64, mips_big_info, mips_info};
ghost use Rattle.nugwier_symbols.specs.RelocationRows.{mips_little_info, name_of_symbol, name_used, plain_info};
ghost use Rattle.nugwier_symbols.specs.RelocationRows.{relative_members, relocation_members, stated};
ghost use Rattle.nugwier_symbols.specs.RelocationRows.{relative_said, relocation_said, symbol_name, table_name, type_name};
ghost use Rattle.nugwier_symbols.specs.RelocationRows.{used_symbol, used_view, version_used};
ghost use Rattle.nugwier_report.specs.Said.{saying, unread};
ghost use Rattle.nugwier_symbols.specs.SymbolRows.{version_known, version_read};
ghost use Rattle.nugwier_symbols.specs.SymbolVersions.{version_view};

use crate::symbol_rows::version_parts;
use crate::symbol_versions::{ShownVersion, shown_version};
use elf_abi::abi;
use elf_dynamic::relr::RelrIterator;
use elf_names::relocations::relocation_type_name;
use elf_parts::endian::EndianParse;
use elf_parts::file::Class;
use elf_parts::gnu_symver::SymbolVersions;
use elf_parts::parse::ParseError;
use elf_parts::relocation::{Relocation, RelocationFields};
use elf_parts::string_table::TerminatedStrings;
use elf_parts::symbol::{Symbol, SymbolTable};
use elf_records::slices::first_of;
use nugwier_layouts::json::{Member, Value};
use nugwier_layouts::layouts;
use nugwier_report::names::Labels;
use nugwier_report::problem::{Item, Part, Place, Stop, part_member};
use nugwier_report::rows::Row;
use nugwier_report::tell::{Tell, readable};
use std::marker::PhantomData;

/// What relocations are decoded by: the machine, the class and the byte order of their file.
#[derive(Clone, Copy)]
pub struct Machine {
    pub e_machine: u16,
    pub class: Class,
    pub is_little: bool,
}

/// The fields of `r_info`.
#[derive(Clone, Copy)]
pub struct Info {
    pub symbol: u32,
    pub r_type: u32,
    /// Those that only 64-bit files of MIPS have.
    pub mips: Option<MipsInfo>,
}

/// A special symbol, and two types that follow the first.
#[derive(Clone, Copy)]
pub struct MipsInfo {
    pub r_ssym: u32,
    pub r_type2: u32,
    pub r_type3: u32,
}

/// What other files have in place of it.
pub const NO_MIPS_INFO: MipsInfo = MipsInfo {
    r_ssym: 0,
    r_type2: 0,
    r_type3: 0,
};

fn info_of(machine: Machine, relocation: &RelocationFields) -> Info
    ensures { result ≡ info_of machine relocation.now }
{
    if !is_mips_64(machine) {
        plain_info(relocation)
    } else if machine.is_little {
        mips_little_info(relocation)
    } else {
        mips_big_info(relocation)
    }
}

fn is_mips_64(machine: Machine) -> bool
    ensures { result ≡ is_mips_64 machine machine.class }
{
    match machine.class {
        Class::ELF64 => machine.e_machine == abi::EM_MIPS,
        Class::ELF32 => false,
    }
}

fn plain_info(relocation: &RelocationFields) -> Info
    ensures { result ≡ plain_info relocation.now }
{
    Info {
        symbol: relocation.r_sym,
        r_type: relocation.r_type,
        mips: None,
    }
}

fn mips_info(symbol: u32, first: u32, second: u32, third: u32, special: u32) -> Info
    ensures { result ≡ mips_info symbol first second third special }
{
    Info {
        symbol,
        r_type: first,
        mips: Some(MipsInfo {
            r_ssym: special,
            r_type2: second,
            r_type3: third,
        }),
    }
}

fn mips_little_info(relocation: &RelocationFields) -> Info
    ensures { result ≡ mips_little_info relocation.now }
{
    let types = relocation.r_sym;
    let (second, third) = (types / 0x1_0000 % 0x100, types / 0x100 % 0x100);
    mips_info(
        relocation.r_type,
        types / 0x100_0000,
        second,
        third,
        types % 0x100,
    )
}

fn mips_big_info(relocation: &RelocationFields) -> Info
    ensures { result ≡ mips_big_info relocation.now }
{
    let types = relocation.r_type;
    let (second, third) = (types / 0x100 % 0x100, types / 0x1_0000 % 0x100);
    mips_info(
        relocation.r_sym,
        types % 0x100,
        second,
        third,
        types / 0x100_0000,
    )
}

/// The symbols that relocations use, with their names and versions.
#[derive(Drop)]
pub struct Symbols<'a, E: EndianParse, V: SymbolVersions<E>> {
    pub table: SymbolTable<'a, E>,
    pub strings: TerminatedStrings<'a>,
    /// The versions, if the symbols have any.
    pub versions: Option<&'a V>,
    /// The sections, by which their symbols are named.
    pub labels: &'a Labels<'a>,
}

/// Returns the name of a symbol. That of a section may have none: it is shown by the name of the section.
pub fn symbol_name<'a>(
    labels: &Labels<'a>,
    strings: &TerminatedStrings<'a>,
    symbol: &Symbol,
) -> Result<&'a [u8], ParseError>
    ensures { ok_map (λ name. name.now) result ≡ symbol_name (named_by labels.now) strings.now symbol.now }
{
    if symbol.st_symtype() == abi::STT_SECTION && symbol.st_name == 0 {
        return Ok(labels.name_at(symbol.st_shndx as usize));
    }
    strings.get_raw(symbol.st_name as usize)
}

// The name and the version of a symbol.
#[derive(Drop)]
struct UsedName<'a> {
    name: Result<&'a [u8], ParseError>,
    version: Result<Option<ShownVersion<'a>>, ParseError>,
}

impl<'a> UsedName<'a> {
    // The name and the version, if they can be read. Tells that they cannot.
    fn shown<T: Tell>(
        self,
        place: Place,
        tell: &mut T,
    ) -> Result<(Option<&'a [u8]>, Option<ShownVersion<'a>>), Stop>
        ensures name { IfOk result (λ both. option_copied both.0
            ≡ result_ok (ok_map (λ name. name.now) self.entry.name)) }
        ensures version { IfOk result (λ both. option_map version_view both.1
            ≡ version_known (ok_map (option_map version_view) self.entry.version)) }
        ensures wrong { OnOk result (tell.new ≡ saying T.one tell.old
            (unread place (ok_map (λ name. name.now) self.entry.name)
            ++ unread place (ok_map (option_map version_view) self.entry.version))) }
    {
        let UsedName { name, version } = self;
        let name = readable(place, name, tell)?;
        let version = readable(place, version, tell)?;
        Ok((name, version.flatten()))
    }
}

impl<'a, E: EndianParse, V: SymbolVersions<E>> Symbols<'a, E, V> {
    // The symbol of this number; none of number 0, which is none.
    fn symbol(&self, number: u32) -> Result<Option<Symbol>, ParseError>
        ensures { result ≡ used_symbol (Some (used_view V.versions self.now)) number }
    {
        if number == 0 {
            return Ok(None);
        }
        match self.table.get(number as usize) {
            Ok(symbol) => Ok(Some(symbol)),
            Err(error) => Err(error),
        }
    }

    // The name of a symbol.
    fn name(&self, symbol: &Symbol) -> Result<&'a [u8], ParseError>
        ensures { ok_map (λ name. name.now) result ≡ name_of_symbol (used_view V.versions self.now) symbol.now }
    {
        symbol_name(self.labels, &self.strings, symbol)
    }

    // The version of a symbol, if there are versions.
    fn version(&self, number: u32, symbol: &Symbol) -> Result<Option<ShownVersion<'a>>, ParseError>
        ensures { ok_map (option_map version_view) result
            ≡ version_read (used_view V.versions self.now).versions number symbol.now }
    {
        match self.versions {
            Some(versions) => shown_version::<E, V>(versions, number as usize, symbol),
            None => Ok(None),
        }
    }

    // The name and the version of the symbol of this number.
    fn used(&self, number: u32) -> UsedName<'a>
        ensures name { ok_map (λ name. name.now) result.name ≡ name_used (Some (used_view V.versions self.now)) number }
        ensures version { ok_map (option_map version_view) result.version
            ≡ version_used (Some (used_view V.versions self.now)) number }
    {
        match self.symbol(number) {
            Ok(Some(symbol)) => UsedName {
                name: self.name(&symbol),
                version: self.version(number, &symbol),
            },
            Ok(None) => NO_NAME,
            Err(error) => UsedName {
                name: Err(error),
                version: Ok(None),
            },
        }
    }
}

// What a relocation without a symbol shows.
const NO_NAME: UsedName<'static> = UsedName {
    name: Ok(&[]),
    version: Ok(None),
};

// The name and the version of a symbol, if there are symbols.
fn used_name<'a, E: EndianParse, V: SymbolVersions<E>>(
    symbols: &Option<Symbols<'a, E, V>>,
    number: u32,
) -> UsedName<'a>
    ensures name { ok_map (λ name. name.now) result.name
        ≡ name_used (option_map (used_view V.versions) symbols.now) number }
    ensures version { ok_map (option_map version_view) result.version
        ≡ version_used (option_map (used_view V.versions) symbols.now) number }
{
    match symbols {
        Some(symbols) => symbols.used(number),
        None => NO_NAME,
    }
}

/// Relocations of a part of a file, each with the name and the version of its symbol, if there are symbols.
#[derive(Drop)]
pub struct RelocationRow<'a, E: EndianParse, V: SymbolVersions<E>, R: Relocation> {
    pub part: Part,
    pub machine: Machine,
    pub symbols: Option<Symbols<'a, E, V>>,
    pub kind: PhantomData<R>,
}

impl<E: EndianParse, V: SymbolVersions<E>, R: Relocation> Row for RelocationRow<'_, E, V, R> {
    type Item = R;

    ghost said = { λ row number relocation. relocation_said row.machine row.part
        (option_map (used_view V.versions) row.symbols) number (R.fields relocation) };

    fn tell<T: Tell>(&self, number: u64, relocation: &R, tell: &mut T) -> Result<(), Stop> {
        let relocation = relocation.fields();
        let info = info_of(self.machine, &relocation);
        let used = used_name(&self.symbols, info.symbol);
        let place = self.part.item(Item::RelocationSymbol(number));
        let (name, version) = used.shown(place, tell)?;
        let members = members_of(
            self.machine,
            self.part,
            number,
            &relocation,
            &info,
            name,
            version,
        );
        state(info.mips, &members, tell)
    }
}

// States a relocation. Of files that are not 64-bit ones of MIPS the last members say nothing.
fn state<T: Tell>(mips: Option<MipsInfo>, members: &[Member<'_>], tell: &mut T) -> Result<(), Stop>
    ensures { OnOk result (tell.new ≡ saying T.one tell.old (stated mips (members_said members.now) ∷ [])) }
{
    match mips {
        Some(_) => tell.state(&layouts::MIPS_RELOCATION, members),
        None => tell.state(&layouts::RELOCATION, first_of(PLAIN_MEMBERS, members)),
    }
}

// How many members a relocation has that is of no 64-bit file of MIPS.
const PLAIN_MEMBERS: usize = 11;

fn members_of<'a>(
    machine: Machine,
    part: Part,
    number: u64,
    relocation: &RelocationFields,
    info: &Info,
    name: Option<&'a [u8]>,
    version: Option<ShownVersion<'a>>,
) -> [Member<'a>; 16]
    ensures { members_said result ≡ relocation_members machine part number relocation.now info.now
        (option_copied name.entry) (option_map version_view version.entry) }
{
    let (version, is_default) = version_parts(version);
    let mips = info.mips.unwrap_or(NO_MIPS_INFO);
    [
        part_member(part),
        ("index", Value::Number(number)),
        ("r_offset", Value::Number(relocation.r_offset)),
        ("r_sym", Value::Number(info.symbol as u64)),
        ("name", Value::Text(name)),
        ("version", Value::Text(version)),
        ("version_is_default", is_default),
        ("r_type", Value::Number(info.r_type as u64)),
        ("r_type_name", Value::Word(type_name(machine, info.r_type))),
        ("r_addend", addend_of(relocation.r_addend)),
        ("table", Value::Word(table_name(part))),
        ("r_ssym", Value::Number(mips.r_ssym as u64)),
        ("r_type2", Value::Number(mips.r_type2 as u64)),
        (
            "r_type2_name",
            Value::Word(type_name(machine, mips.r_type2)),
        ),
        ("r_type3", Value::Number(mips.r_type3 as u64)),
        (
            "r_type3_name",
            Value::Word(type_name(machine, mips.r_type3)),
        ),
    ]
}

fn type_name(machine: Machine, r_type: u32) -> Option<&'static str>
    ensures { option_copied result ≡ type_name machine r_type }
{
    relocation_type_name(machine.e_machine, r_type)
}

fn addend_of(addend: Option<i64>) -> Value<'static>
    ensures { content_of result ≡ addend_of addend }
{
    match addend {
        Some(addend) => Value::Signed(addend),
        None => Value::Null,
    }
}

/// Says the addresses of packed relative relocations.
pub fn tell_relative<E: EndianParse, T: Tell>(
    part: Part,
    addresses: RelrIterator<'_, E>,
    tell: &mut T,
) -> Result<(), Stop>
    ensures { OnOk result (tell.new
        ≡ saying T.one tell.old (flat_map (relative_said part) (addresses_left addresses.entry))) }
{
    for address in addresses {
        tell.state(&layouts::RELATIVE, &relative_members(part, address))?;
    }
    Ok(())
}

fn relative_members(part: Part, address: u64) -> [Member<'static>; 3]
    ensures { members_said result ≡ relative_members part address }
{
    [
        part_member(part),
        ("r_offset", Value::Number(address)),
        ("table", Value::Word(table_name(part))),
    ]
}

// The tag of the dynamic entry that gives the relocations, if they are not of a section.
fn table_name(part: Part) -> Option<&'static str>
    ensures { option_copied result ≡ table_name part }
{
    match part {
        Part::Relocations(table) => Some(table.name()),
        _ => None,
    }
}
