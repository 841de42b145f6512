//! What is said of links to files with debug information.
#![tactic(auto, using(nugwier_report::proofs::Saying::saying_both, nugwier_report::proofs::Parts::said_parts))]

ghost use Rattle.std.specs.Prelude.{◌≡◌, OnOk};
ghost use Rattle.elf_tools.specs.DebugLink.{alt_link_view, link_view};
ghost use Rattle.nugwier_sections.specs.DebugLinkRows.{alt_link_members, alt_link_said, link_members, link_said};
ghost use Rattle.nugwier_layouts.specs.Members.{members_said};
ghost use Rattle.nugwier_report.specs.Said.{saying};

use elf_tools::debug_link::{DebugAltLink, DebugLink};
use nugwier_layouts::json::{Member, Value};
use nugwier_layouts::layouts;
use nugwier_report::problem::Stop;
use nugwier_report::tell::Tell;

/// Says the link of a section, by its number.
pub fn tell_debug_link<T: Tell>(section: u64, link: DebugLink<'_>, tell: &mut T) -> Result<(), Stop>
    ensures { OnOk result (tell.new ≡ saying T.one tell.old (link_said section (link_view link.entry))) }
{
    tell.state(&layouts::DEBUG_LINK, &link_members(section, link))
}

fn link_members(section: u64, link: DebugLink<'_>) -> [Member<'_>; 3]
    ensures { members_said result ≡ link_members section (link_view link.entry) }
{
    [
        ("section", Value::Number(section)),
        ("name", Value::Text(Some(link.name))),
        ("crc", Value::Number(link.crc as u64)),
    ]
}

/// Says the link of a section to a file that several files share, by its number.
pub fn tell_debug_alt_link<T: Tell>(
    section: u64,
    link: DebugAltLink<'_>,
    tell: &mut T,
) -> Result<(), Stop>
    ensures { OnOk result (tell.new ≡ saying T.one tell.old (alt_link_said section (alt_link_view link.entry))) }
{
    tell.state(&layouts::DEBUG_ALT_LINK, &alt_link_members(section, link))
}

fn alt_link_members(section: u64, link: DebugAltLink<'_>) -> [Member<'_>; 3]
    ensures { members_said result ≡ alt_link_members section (alt_link_view link.entry) }
{
    [
        ("section", Value::Number(section)),
        ("name", Value::Text(Some(link.name))),
        ("build_id", Value::Bytes(link.build_id)),
    ]
}
