//! What is said of section groups.
#![tactic(auto, using(nugwier_report::proofs::Saying::saying_both, nugwier_report::proofs::Parts::said_parts))]

ghost use Rattle.std.specs.Prelude.{◌≡◌, OnOk};
ghost use Rattle.std.specs.Option.{option_copied};
ghost use Rattle.elf_names.specs.Flags.{flags_of};
ghost use Rattle.nugwier_symbols.specs.GroupRows.{group_flags, group_members, group_said, group_view, is_section};
ghost use Rattle.nugwier_symbols.specs.GroupRows.{member_members, member_said};
ghost use Rattle.nugwier_report.specs.Labels.{named_by};
ghost use Rattle.nugwier_layouts.specs.Members.{members_said};
ghost use Rattle.nugwier_report.specs.Said.{saying};

use elf_names::flags::Flags;
use elf_parts::endian::EndianParse;
use elf_parts::parse::{ParseError, ParsingIterator};
use nugwier_layouts::json::{Member, Value};
use nugwier_layouts::layouts;
use nugwier_report::names::Labels;
use nugwier_report::problem::{Fault, Item, Part, Stop};
use nugwier_report::rows::{Row, tell_records};
use nugwier_report::tell::{Tell, readable};

/// A section group: its flag word, the numbers of its members, and its signature, which is the name of a symbol.
#[derive(Drop)]
pub struct Group<'a, E: EndianParse> {
    pub flags: u32,
    pub members: ParsingIterator<'a, E, u32>,
    pub signature: Result<&'a [u8], ParseError>,
}

/// Flags of section groups (gABI, chapter "Sections", "Section Groups").
pub const GROUP: Flags = &[(0x1, 0x1, "GRP_COMDAT")];

#[tactic(auto, unfolding(crate::specs::GroupRows::group_flags))]
fn group_flags() -> Flags
    ensures { flags_of result.now ≡ group_flags }
{
    GROUP
}

/// Says the group of a section: that its signature cannot be read, then the group, and each member.
pub fn tell_group<E: EndianParse, T: Tell>(
    section: u64,
    group: Group<'_, E>,
    labels: &Labels<'_>,
    tell: &mut T,
) -> Result<(), Stop>
    ensures { OnOk result (tell.new
        ≡ saying T.one tell.old (group_said (named_by labels.now) section (group_view group.entry))) }
{
    let Group {
        flags,
        members,
        signature,
    } = group;
    let place = Part::Section(section).item(Item::Signature);
    let signature = readable(place, signature, tell)?;
    tell.state(
        &layouts::GROUP,
        &group_members(labels, section, flags, signature),
    )?;
    tell_records(members, &MemberRow { section, labels }, tell)
}

fn group_members<'a>(
    labels: &Labels<'a>,
    section: u64,
    flags: u32,
    signature: Option<&'a [u8]>,
) -> [Member<'a>; 5]
    ensures { members_said result
        ≡ group_members (named_by labels.now) section flags (option_copied signature.entry) }
{
    [
        ("section", Value::Number(section)),
        ("name", Value::Text(Some(labels.name_at(section as usize)))),
        ("flags", Value::Number(flags as u64)),
        ("flags_names", Value::Flags(group_flags(), flags as u64)),
        ("signature", Value::Text(signature)),
    ]
}

// A member of the group of a section.
#[derive(Drop)]
struct MemberRow<'a> {
    section: u64,
    labels: &'a Labels<'a>,
}

impl Row for MemberRow<'_> {
    type Item = u32;

    ghost said = { λ row number member. member_said (named_by row.labels.now) row.section number member };

    fn tell<T: Tell>(&self, number: u64, member: &u32, tell: &mut T) -> Result<(), Stop> {
        if is_section(self.labels, *member) {
            tell.state(
                &layouts::GROUP_MEMBER,
                &member_members(self.labels, self.section, number, *member),
            )
        } else {
            let place = Part::Section(self.section).item(Item::Member(*member as u64));
            tell.problem(place, &Fault::Missing)
        }
    }
}

// Section 0 is none.
fn is_section(labels: &Labels<'_>, number: u32) -> bool
    ensures { result ≡ is_section (named_by labels.now) number }
{
    number != 0 && (number as usize) < labels.sections.len()
}

fn member_members<'a>(
    labels: &Labels<'a>,
    section: u64,
    number: u64,
    member: u32,
) -> [Member<'a>; 4]
    ensures { members_said result ≡ member_members (named_by labels.now) section number member }
{
    [
        ("section", Value::Number(section)),
        ("index", Value::Number(number)),
        ("member", Value::Number(member as u64)),
        ("name", Value::Text(Some(labels.name_at(member as usize)))),
    ]
}
