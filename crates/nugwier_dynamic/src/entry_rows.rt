//! What is said of dynamic entries.
#![tactic(auto, using(nugwier_report::proofs::Saying::saying_both, nugwier_report::proofs::Parts::said_parts))]

ghost use Rattle.std.specs.Prelude.{◌≡◌, OnOk};
ghost use Rattle.std.specs.Option.{option_copied, option_map};
ghost use Rattle.nugwier_layouts.specs.Layouts.{layout_of};
ghost use Rattle.nugwier_dynamic.specs.EntryRows.{entry_members, entry_said, flags_in, named_said, nameless_layout};
ghost use Rattle.nugwier_dynamic.specs.EntryRows.{needed_layout, needed_said};
ghost use Rattle.nugwier_layouts.specs.Members.{content_of, members_said};
ghost use Rattle.nugwier_report.specs.Said.{saying};

use elf_abi::abi;
use elf_names::flags::{dynamic_flags, dynamic_flags_1};
use elf_names::tags::tag_name;
use elf_parts::dynamic::Dyn;
use elf_parts::string_table::TerminatedStrings;
use nugwier_layouts::json::{Member, Value};
use nugwier_layouts::layouts;
use nugwier_layouts::layouts::Layout;
use nugwier_report::problem::{Item, Part, Stop};
use nugwier_report::rows::Row;
use nugwier_report::tell::{Tell, readable};

/// A dynamic entry of a file for this machine (`e_machine`), with the string that it names in these strings, if there
/// are any.
#[derive(Drop)]
pub struct EntryRow<'a> {
    pub machine: u16,
    pub strings: Option<TerminatedStrings<'a>>,
}

impl Row for EntryRow<'_> {
    type Item = Dyn;

    ghost said = { λ row number entry. entry_said row.machine row.strings number entry };

    fn tell<T: Tell>(&self, number: u64, entry: &Dyn, tell: &mut T) -> Result<(), Stop> {
        match &self.strings {
            Some(strings) if needed_layout(entry).is_some() => tell_named(
                &layouts::NAMED_ENTRY,
                self.machine,
                strings,
                number,
                entry,
                tell,
            ),
            _ => {
                let layout = nameless_layout(entry);
                tell.state(layout, &entry_members(self.machine, number, entry, None))
            }
        }
    }
}

/// A dynamic entry that names a library or a search path, with the string in these strings. Nothing is said of others.
#[derive(Drop)]
pub struct NeededRow<'a> {
    pub machine: u16,
    pub strings: TerminatedStrings<'a>,
}

impl Row for NeededRow<'_> {
    type Item = Dyn;

    ghost said = { λ row number entry. needed_said row.machine row.strings number entry };

    fn tell<T: Tell>(&self, number: u64, entry: &Dyn, tell: &mut T) -> Result<(), Stop> {
        match needed_layout(entry) {
            Some(layout) => tell_named(layout, self.machine, &self.strings, number, entry, tell),
            None => Ok(()),
        }
    }
}

// How an entry that names a library or a search path is shown. Its number is the offset of a string.
fn needed_layout(entry: &Dyn) -> Option<&'static Layout>
    ensures { option_map (λ l. layout_of l.now) result ≡ needed_layout entry.now }
{
    match entry.d_tag {
        abi::DT_NEEDED => Some(&layouts::NEEDED),
        abi::DT_SONAME => Some(&layouts::SONAME),
        abi::DT_RPATH => Some(&layouts::RPATH),
        abi::DT_RUNPATH => Some(&layouts::RUNPATH),
        _ => None,
    }
}

// Says an entry with the string that it names.
fn tell_named<T: Tell>(
    layout: &'static Layout,
    machine: u16,
    strings: &TerminatedStrings<'_>,
    number: u64,
    entry: &Dyn,
    tell: &mut T,
) -> Result<(), Stop>
    ensures { OnOk result (tell.new ≡ saying T.one tell.old (named_said (layout_of layout.now) machine strings.now number entry.now)) }
{
    let place = Part::Dynamic.item(Item::EntryName(number));
    let name = readable(place, strings.get_raw(entry.d_val() as usize), tell)?;
    tell.state(layout, &entry_members(machine, number, entry, name))
}

// How an entry that names no string is shown.
fn nameless_layout(entry: &Dyn) -> &'static Layout
    ensures { layout_of result.now ≡ nameless_layout entry.now }
{
    match entry.d_tag {
        abi::DT_FLAGS => &layouts::FLAGS_ENTRY,
        abi::DT_FLAGS_1 => &layouts::FLAGS_1_ENTRY,
        _ => &layouts::ENTRY,
    }
}

// The flags that an entry has, if it has flags.
fn flags_in(entry: &Dyn) -> Value<'static>
    ensures { content_of result ≡ flags_in entry.now }
{
    match entry.d_tag {
        abi::DT_FLAGS => Value::Flags(dynamic_flags(), entry.d_val()),
        abi::DT_FLAGS_1 => Value::Flags(dynamic_flags_1(), entry.d_val()),
        _ => Value::Null,
    }
}

fn entry_members<'a>(
    machine: u16,
    number: u64,
    entry: &Dyn,
    name: Option<&'a [u8]>,
) -> [Member<'a>; 6]
    ensures { members_said result ≡ entry_members machine number entry.now (option_copied name.entry) }
{
    [
        ("index", Value::Number(number)),
        ("d_tag", Value::Signed(entry.d_tag)),
        ("d_tag_name", Value::Word(tag_name(machine, entry.d_tag))),
        ("d_un", Value::Number(entry.d_val())),
        ("d_un_names", flags_in(entry)),
        ("name", Value::Text(name)),
    ]
}
