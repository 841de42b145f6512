//! The parts of a file that `list` tells.
#![tactic(auto, using(nugwier_report::proofs::Saying::saying_both))]

ghost use Rattle.std.specs.Prelude.{◌≡◌, OnOk};
ghost use Rattle.std.specs.List.{flat_map};
ghost use Rattle.nugwier_commands.specs.Job.{is_listed, said_if_listed, said_of_list, said_of_part};
ghost use Rattle.nugwier_report.specs.Said.{saying};
ghost use Rattle.nugwier_report.specs.Whole.{file_of};
ghost use Rattle.nugwier_commands.specs.Words.{task_of};

use crate::words::{Job, Parts};
use elf::endian::EndianParse;
use nugwier_dynamic::chains::tell_chains;
use nugwier_dynamic::entries::tell_entries;
use nugwier_dynamic::hardening::file_kind;
use nugwier_dynamic::version_lists::tell_version_lists;
use nugwier_notes::attribute_sections::tell_attributes;
use nugwier_notes::note_sections::tell_notes;
use nugwier_report::listed::ListedFile;
use nugwier_report::problem::Stop;
use nugwier_report::tell::Tell;
use nugwier_sections::contents::tell_contents;
use nugwier_sections::debug_links::tell_debug_links;
use nugwier_sections::header::tell_header;
use nugwier_sections::sections::tell_sections;
use nugwier_sections::segments::tell_segments;
use nugwier_symbols::groups::tell_groups;
use nugwier_symbols::relocations::tell_relocations;
use nugwier_symbols::symbols::{tell_dynamic_symbols, tell_symbols};
use std::alloc::Global;

// A part that can be listed.
#[derive(Clone, Copy)]
enum ListedPart {
    Header,
    Sections,
    Groups,
    Segments,
    Symbols,
    DynamicSymbols,
    Dynamic,
    Relocations,
    Notes,
    Versions,
    Chains,
    Attributes,
    DebugLinks,
}

// All of them, in the order of a listing.
static PARTS: [ListedPart; 13] = [
    ListedPart::Header,
    ListedPart::Sections,
    ListedPart::Groups,
    ListedPart::Segments,
    ListedPart::Symbols,
    ListedPart::DynamicSymbols,
    ListedPart::Dynamic,
    ListedPart::Relocations,
    ListedPart::Notes,
    ListedPart::Versions,
    ListedPart::Chains,
    ListedPart::Attributes,
    ListedPart::DebugLinks,
];

/// Tells the parts that are asked for, and then the contents of sections.
pub fn tell_list<E: EndianParse, R: ListedFile<E>, T: Tell>(
    alloc: Global,
    job: &Job<'_>,
    file: &R,
    tell: &mut T,
) -> Result<(), Stop>
    ensures { OnOk result (tell.new ≡ saying T.one tell.old (said_of_list E.little (task_of job.now)
        (R.header file.now) (file_of (R.file file.now) (R.bytes file.now)))) }
{
    tell_parts(alloc, &PARTS, &job.parts, file, tell)?;
    tell_contents(alloc, file, job.contents.as_slice(), tell)
}

// Tells those of these parts that are asked for.
fn tell_parts<E: EndianParse, R: ListedFile<E>, T: Tell>(
    alloc: Global,
    all: &[ListedPart],
    parts: &Parts,
    file: &R,
    tell: &mut T,
) -> Result<(), Stop>
    ensures { OnOk result (tell.new ≡ saying T.one tell.old (flat_map (said_if_listed E.little parts.now
        (R.header file.now) (file_of (R.file file.now) (R.bytes file.now))) all.now)) }
{
    for part in all {
        if is_listed(parts, *part) {
            tell_part(alloc, *part, file, tell)?;
        }
    }
    Ok(())
}

fn is_listed(parts: &Parts, part: ListedPart) -> bool
    ensures { result ≡ is_listed parts.now part }
{
    match part {
        ListedPart::Header => parts.header,
        ListedPart::Sections => parts.sections,
        ListedPart::Groups => parts.groups,
        ListedPart::Segments => parts.segments,
        ListedPart::Symbols => parts.symbols,
        ListedPart::DynamicSymbols => parts.dynamic_symbols,
        ListedPart::Dynamic => parts.dynamic,
        ListedPart::Relocations => parts.relocations,
        ListedPart::Notes => parts.notes,
        ListedPart::Versions => parts.versions,
        ListedPart::Chains => parts.chains,
        ListedPart::Attributes => parts.attributes,
        ListedPart::DebugLinks => parts.debug_links,
    }
}

// Tells a part.
fn tell_part<E: EndianParse, R: ListedFile<E>, T: Tell>(
    alloc: Global,
    part: ListedPart,
    file: &R,
    tell: &mut T,
) -> Result<(), Stop>
    ensures { OnOk result (tell.new ≡ saying T.one tell.old (said_of_part E.little (R.header file.now)
        (file_of (R.file file.now) (R.bytes file.now)) part)) }
{
    match part {
        ListedPart::Header => tell_header(&file.file_header(), file_kind(alloc, file)?, tell),
        ListedPart::Sections => tell_sections(file, tell),
        ListedPart::Groups => tell_groups(alloc, file, tell),
        ListedPart::Segments => tell_segments(file, tell),
        ListedPart::Symbols => tell_symbols(alloc, file, tell),
        ListedPart::DynamicSymbols => tell_dynamic_symbols(alloc, file, tell),
        ListedPart::Dynamic => tell_entries(alloc, file, tell),
        ListedPart::Relocations => tell_relocations(alloc, file, tell),
        ListedPart::Notes => tell_notes(alloc, file, tell),
        ListedPart::Versions => tell_version_lists(alloc, file, tell),
        ListedPart::Chains => tell_chains(alloc, file, tell),
        ListedPart::Attributes => tell_attributes(alloc, file, tell),
        ListedPart::DebugLinks => tell_debug_links(file, tell),
    }
}
