//! What is said of sections.
#![tactic(auto, using(nugwier_report::proofs::Saying::saying_both, nugwier_report::proofs::Parts::said_parts))]

ghost use Rattle.std.specs.Prelude.{◌≡◌, IfOk, OnOk};
ghost use Rattle.std.specs.Option.{option_copied};
ghost use Rattle.nugwier_layouts.specs.Members.{members_said};
ghost use Rattle.nugwier_report.specs.Said.{saying};
ghost use Rattle.nugwier_sections.specs.SectionRows.{name_read, name_unread, section_members, section_said};

use elf_names::flags::section_flags;
use elf_names::sections::section_type_name;
use elf_parts::section::SectionHeader;
use elf_parts::string_table::TerminatedStrings;
use nugwier_layouts::json::{Member, Value};
use nugwier_layouts::layouts;
use nugwier_report::problem::{Item, Part, Stop};
use nugwier_report::rows::Row;
use nugwier_report::tell::{Tell, readable};

/// A section of a file for this machine (`e_machine`), with its name in these strings, if there are any.
#[derive(Drop)]
pub struct SectionRow<'a> {
    pub machine: u16,
    pub names: Option<TerminatedStrings<'a>>,
}

impl Row for SectionRow<'_> {
    type Item = SectionHeader;

    ghost said = { λ row number section. section_said row.machine row.names number section };

    fn tell<T: Tell>(
        &self,
        number: u64,
        section: &SectionHeader,
        tell: &mut T,
    ) -> Result<(), Stop> {
        let name = section_name(&self.names, number, section, tell)?;
        tell.state(
            &layouts::SECTION,
            &section_members(self.machine, number, section, name),
        )
    }
}

// The name of a section; no name if there are no names.
fn section_name<'a, T: Tell>(
    names: &Option<TerminatedStrings<'a>>,
    number: u64,
    section: &SectionHeader,
    tell: &mut T,
) -> Result<Option<&'a [u8]>, Stop>
    ensures name { IfOk result (λ name. option_copied name ≡ name_read names.now section.now) }
    ensures wrong { OnOk result (tell.new ≡ saying T.one tell.old (name_unread names.now number section.now)) }
{
    let Some(names) = names else {
        return Ok(Some(&[]));
    };
    let place = Part::Section(number).item(Item::Name);
    readable(place, names.get_raw(section.sh_name as usize), tell)
}

fn section_members<'a>(
    machine: u16,
    number: u64,
    section: &SectionHeader,
    name: Option<&'a [u8]>,
) -> [Member<'a>; 14]
    ensures { members_said result ≡ section_members machine number section.now (option_copied name.entry) }
{
    [
        ("index", Value::Number(number)),
        ("sh_name", Value::Number(section.sh_name as u64)),
        ("name", Value::Text(name)),
        ("sh_type", Value::Number(section.sh_type as u64)),
        (
            "sh_type_name",
            Value::Word(section_type_name(machine, section.sh_type)),
        ),
        ("sh_flags", Value::Number(section.sh_flags)),
        (
            "sh_flags_names",
            Value::Flags(section_flags(), section.sh_flags),
        ),
        ("sh_addr", Value::Number(section.sh_addr)),
        ("sh_offset", Value::Number(section.sh_offset)),
        ("sh_size", Value::Number(section.sh_size)),
        ("sh_link", Value::Number(section.sh_link as u64)),
        ("sh_info", Value::Number(section.sh_info as u64)),
        ("sh_addralign", Value::Number(section.sh_addralign)),
        ("sh_entsize", Value::Number(section.sh_entsize)),
    ]
}
