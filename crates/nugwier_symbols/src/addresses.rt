//! The symbols at addresses.
#![tactic(auto, using(nugwier_report::proofs::Saying::saying_both))]

ghost use Rattle.std.specs.Prelude.{◌≡◌, IfOk, OnOk, map};
ghost use Rattle.std.specs.Option.{option_map};
ghost use Rattle.elf.specs.Answers.{symbols_view};
ghost use Rattle.elf_records.specs.Number.{ok_map};
ghost use Rattle.nugwier_symbols.specs.Addresses.{AreAddressesSaid, AreEachSaid, AreSaidBy, all_symbols};
ghost use Rattle.nugwier_symbols.specs.Addresses.{among_of, placed};
ghost use Rattle.nugwier_report.specs.Whole.{file_of};
ghost use Rattle.nugwier_report.specs.Said.{IsToldAs};
ghost use Rattle.nugwier_symbols.specs.Addresses.{sought, text_of};

use crate::address_rows::{AddressRow, Among, PlacedAddress};
use elf::abi;
use elf::endian::EndianParse;
use elf::string_table::TerminatedStrings;
use elf_tools::addresses::Addresses;
use nugwier_report::headings::known_names;
use nugwier_report::linked::linked_symbols;
use nugwier_report::listed::ListedFile;
use nugwier_report::named_sections::section_of;
use nugwier_report::problem::{Fault, Part, Stop};
use nugwier_report::quoted::Quoted;
use nugwier_report::reading;
use nugwier_report::reading::{FoundSymbols, Symbols};
use nugwier_report::rows::tell_slice;
use nugwier_report::tell::Tell;
use std::alloc::Global;

/// An address, and the section that it is in, by its name or its number, if one is given.
#[derive(Debug, Clone, Copy)]
pub struct AskedAddress<'a> {
    pub section: Option<&'a str>,
    pub address: u64,
}

/// Tells the symbol that starts at each address or before it. It is wrong if there are no symbols, if none starts there
/// or before, if its name cannot be read, or if its section is not given or not found.
pub fn tell_addresses<E: EndianParse, R: ListedFile<E>, T: Tell>(
    alloc: Global,
    asked: &[AskedAddress<'_>],
    file: &R,
    tell: &mut T,
) -> Result<(), Stop>
    ensures { let header = R.header file.now in OnOk result (IsToldAs T.silent T.one
        (AreAddressesSaid header.e_type header.e_machine (map sought asked.now)
        (file_of (R.file file.now) (R.bytes file.now))) tell.old tell.new) }
{
    let addresses = placed(alloc, file, asked)?;
    let symbols = all_symbols(file)?;
    tell_symbols(
        alloc,
        file.file_header().e_machine,
        symbols,
        addresses.as_slice(),
        tell,
    )
}

// The addresses, each with the symbols among which its own is looked for.
fn placed<'w, E: EndianParse, R: ListedFile<E>>(
    alloc: Global,
    file: &R,
    asked: &[AskedAddress<'w>],
) -> Result<Vec<PlacedAddress<'w>>, Stop>
    ensures { let whole = file_of (R.file file.now) (R.bytes file.now) in IfOk result (λ addresses.
        addresses.items ≡ map (placed (R.header file.now).e_type whole) (map sought asked.now)) }
{
    let mut addresses = Vec::new(alloc);
    for one in asked {
        let among = among_of(file, one.section)?;
        addresses.push(PlacedAddress {
            address: one.address,
            among,
        })?;
    }
    Ok(addresses)
}

// The symbols of the section that a word names, if it names one. Without a word no names are read.
fn among_of<'w, E: EndianParse, R: ListedFile<E>>(
    file: &R,
    section: Option<&'w str>,
) -> Result<Among<'w>, Stop>
    ensures { IfOk result (λ among. among ≡ among_of (R.header file.now).e_type
        (file_of (R.file file.now) (R.bytes file.now)) (text_of section.entry)) }
{
    match section {
        Some(word) => {
            let names = known_names(file)?;
            match section_of(file, &names, word) {
                Some((number, _)) => Ok(Among::Section(number as u64)),
                None => Ok(Among::NoSection(Quoted::new(word.as_bytes()))),
            }
        }
        None if file.file_header().e_type == abi::ET_REL => Ok(Among::Unknown),
        None => Ok(Among::File),
    }
}

// The symbols of the section of type `SHT_SYMTAB`, or if there is none the dynamic ones.
fn all_symbols<'f, E: EndianParse, R: ListedFile<E>>(
    file: &'f R,
) -> Result<FoundSymbols<'f, E>, Stop>
    ensures { IfOk result (λ found. ok_map (option_map symbols_view) found
        ≡ all_symbols (file_of (R.file file.now) (R.bytes file.now))) }
{
    match reading::symbols(file)? {
        Ok(Some(symbols)) => Ok(Ok(Some(symbols))),
        Ok(None) => linked_symbols(file),
        Err(fault) => Ok(Err(fault)),
    }
}

// Tells the symbol of each address, or that there are no symbols.
#[tactic(auto, using(crate::proofs::Told::told_wrong))]
fn tell_symbols<E: EndianParse, T: Tell>(
    alloc: Global,
    machine: u16,
    symbols: FoundSymbols<'_, E>,
    addresses: &[PlacedAddress<'_>],
    tell: &mut T,
) -> Result<(), Stop>
    ensures { OnOk result (IsToldAs T.silent T.one
        (AreSaidBy machine addresses.now (ok_map (option_map symbols_view) symbols.entry)) tell.old tell.new) }
{
    match symbols {
        Ok(Some(symbols)) => tell_each(alloc, machine, symbols, addresses, tell),
        Ok(None) => tell.problem(Part::Symbols.whole(), &Fault::Missing),
        Err(fault) => tell.problem(Part::Symbols.whole(), &fault),
    }
}

// Tells the symbol of each address. One of whom nothing comes needs no order of the symbols.
#[tactic(auto, using(crate::proofs::Told::told_as))]
fn tell_each<E: EndianParse, T: Tell>(
    alloc: Global,
    machine: u16,
    symbols: Symbols<'_, E>,
    addresses: &[PlacedAddress<'_>],
    tell: &mut T,
) -> Result<(), Stop>
    ensures { OnOk result (IsToldAs T.silent T.one (AreEachSaid machine addresses.now (symbols_view symbols.entry))
        tell.old tell.new) }
{
    if tell.is_silent() {
        return Ok(());
    }
    let (table, strings) = symbols;
    let by_address = Addresses::new(alloc, machine, &table)?;
    let row = AddressRow {
        symbols: table,
        strings: TerminatedStrings::new(&strings),
        by_address,
    };
    tell_slice(addresses, &row, tell)
}
