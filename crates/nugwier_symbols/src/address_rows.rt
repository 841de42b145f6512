//! What is said of addresses.
#![tactic(auto, using(nugwier_report::proofs::Saying::saying_both, nugwier_report::proofs::Parts::said_parts))]

ghost use Rattle.std.specs.Prelude.{◌≡◌, OnOk};
ghost use Rattle.std.specs.Option.{option_copied};
ghost use Rattle.elf_records.specs.Number.{ok_map};
ghost use Rattle.elf_records.specs.Table.{table_view};
ghost use Rattle.nugwier_symbols.specs.AddressRows.{address_layout, address_members, address_said, nearest_said};
ghost use Rattle.nugwier_symbols.specs.AddressRows.{section_content, symbol_name};
ghost use Rattle.nugwier_layouts.specs.Members.{content_of, members_said};
ghost use Rattle.nugwier_report.specs.Said.{saying};
ghost use Rattle.nugwier_layouts.specs.Layouts.{layout_of};

use elf_parts::endian::EndianParse;
use elf_parts::parse::ParseError;
use elf_parts::string_table::TerminatedStrings;
use elf_parts::symbol::SymbolTable;
use elf_tools::addresses::{Addresses, Nearest};
use nugwier_layouts::json::{Member, Value};
use nugwier_layouts::layouts;
use nugwier_layouts::layouts::Layout;
use nugwier_report::problem::{Item, NoSection, Part, Stop};
use nugwier_report::quoted::Quoted;
use nugwier_report::rows::Row;
use nugwier_report::tell::{Tell, readable};
use std::fmt;

/// The symbols among which that of an address is looked for.
#[derive(Debug, Drop)]
pub enum Among<'a> {
    /// Those of the file.
    File,
    /// Those of the section of this number.
    Section(u64),
    /// None: no section has this name or this number.
    NoSection(Quoted<'a>),
    /// None: an address of a relocatable file is an offset in a section, and none is given.
    Unknown,
}

/// An address, and the symbols among which its own is looked for.
#[derive(Debug, Drop)]
pub struct PlacedAddress<'a> {
    pub address: u64,
    pub among: Among<'a>,
}

/// An address, with the symbol that starts there or before it.
#[derive(Drop)]
pub struct AddressRow<'a, E: EndianParse> {
    pub symbols: SymbolTable<'a, E>,
    pub strings: TerminatedStrings<'a>,
    /// The same symbols by their addresses.
    pub by_address: Addresses,
}

impl<'a, E: EndianParse> AddressRow<'a, E> {
    // The name of a symbol, by its number in the table.
    fn name_of(&self, number: usize) -> Result<&'a [u8], ParseError>
        ensures { ok_map (λ name. name.now) result
            ≡ symbol_name (table_view self.now.symbols) self.now.strings number }
    {
        match self.symbols.get(number) {
            Ok(symbol) => self.strings.get_raw(symbol.st_name as usize),
            Err(error) => Err(error),
        }
    }

    // Says the nearest symbol of an address, if there is one.
    fn tell_nearest<T: Tell>(
        &self,
        one: &PlacedAddress<'_>,
        nearest: Option<Nearest>,
        tell: &mut T,
    ) -> Result<(), Stop>
        ensures { OnOk result (tell.new ≡ saying T.one tell.old
            (nearest_said (table_view self.now.symbols) self.now.strings one.now nearest)) }
    {
        let part = Part::Address(one.address);
        let Some(nearest) = nearest else {
            return tell.problem(part.whole(), &AddressFault::NoSymbol);
        };
        let name = readable(part.item(Item::Name), self.name_of(nearest.symbol), tell)?;
        let layout = address_layout(nearest.is_inside);
        tell.state(layout, &address_members(one, &nearest, name))
    }
}

// Why an address has no symbol.
#[derive(Drop)]
enum AddressFault {
    NoSymbol,
    // An address of a relocatable file is an offset in a section, and none is given.
    NeedsSection,
}

impl fmt::Display for AddressFault {
    ghost use Rattle.nugwier_symbols.specs.AddressRows.{fault_text};

    ghost output = { fault_text };

    #[tactic(auto, unfolding(crate::specs::AddressRows::fault_text))]
    fn fmt<W: fmt::Write>(&self, f: &mut fmt::Formatter<W>) -> fmt::Result {
        f.write_str(match self {
            AddressFault::NoSymbol => "no symbol starts there or before it",
            AddressFault::NeedsSection => {
                "in a relocatable file an address needs a section, as SECTION:ADDRESS"
            }
        })
    }
}

impl<'a, E: EndianParse> Row for AddressRow<'a, E> {
    type Item = PlacedAddress<'a>;

    ghost said = { λ row number one. address_said row.by_address (table_view row.symbols) row.strings one };

    fn tell<T: Tell>(
        &self,
        _number: u64,
        one: &PlacedAddress<'a>,
        tell: &mut T,
    ) -> Result<(), Stop> {
        let address = one.address;
        let place = Part::Address(address).whole();
        match &one.among {
            Among::File => self.tell_nearest(one, self.by_address.find(address), tell),
            Among::Section(number) => {
                self.tell_nearest(one, self.by_address.find_in(*number, address), tell)
            }
            Among::NoSection(word) => tell.problem(place, &NoSection(word.again())),
            Among::Unknown => tell.problem(place, &AddressFault::NeedsSection),
        }
    }
}

fn address_members<'a>(
    one: &PlacedAddress<'_>,
    nearest: &Nearest,
    name: Option<&'a [u8]>,
) -> [Member<'a>; 7]
    ensures { members_said result ≡ address_members one.now nearest.now (option_copied name.entry) }
{
    [
        ("address", Value::Number(one.address)),
        ("symbol", Value::Number(nearest.symbol as u64)),
        ("name", Value::Text(name)),
        ("distance", Value::Number(nearest.distance)),
        ("is_inside", Value::Flag(nearest.is_inside)),
        ("value", Value::Number(nearest.value)),
        ("section", section_value(&one.among)),
    ]
}

// The section that an address is in, if it is looked for in one.
fn section_value(among: &Among<'_>) -> Value<'static>
    ensures { content_of result ≡ section_content among.now }
{
    match among {
        Among::Section(number) => Value::Number(*number),
        _ => Value::Null,
    }
}

fn address_layout(is_inside: bool) -> &'static Layout
    ensures { layout_of result.now ≡ address_layout is_inside }
{
    if is_inside {
        &layouts::INSIDE
    } else {
        &layouts::PAST_END
    }
}
