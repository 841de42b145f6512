//! The build attributes of a file.
#![tactic(auto, using(nugwier_report::proofs::Saying::saying_both))]

ghost use Rattle.std.specs.Prelude.{◌≡◌, OnOk};
ghost use Rattle.nugwier_notes.specs.AttributeSections.{attribute_types, attributes_in, said_of_attributes, section_said};
ghost use Rattle.nugwier_report.specs.Whole.{file_of};
ghost use Rattle.nugwier_report.specs.inner.TypedSections.{section_view};
ghost use Rattle.nugwier_report.specs.Said.{saying};

use crate::attributes::tell_build_attributes;
use crate::note_sections::note_file;
use crate::properties::NoteFile;
use elf::abi;
use elf::endian::EndianParse;
use nugwier_layouts::layouts;
use nugwier_report::headings::{heading_members, known_names};
use nugwier_report::listed::ListedFile;
use nugwier_report::names::label_name;
use nugwier_report::problem::{Part, Stop};
use nugwier_report::tell::Tell;
use nugwier_report::typed_sections::{
    ATTRIBUTE_TYPES, MACHINE_ATTRIBUTE_TYPES, TypedSection, sections_of,
};
use std::alloc::Global;

/// Tells the build attributes of each section that has some.
pub fn tell_attributes<E: EndianParse, R: ListedFile<E>, T: Tell>(
    alloc: Global,
    file: &R,
    tell: &mut T,
) -> Result<(), Stop>
    ensures { OnOk result (tell.new ≡ saying T.one tell.old
        (said_of_attributes (R.header file.now).e_machine (file_of (R.file file.now) (R.bytes file.now)))) }
{
    let names = known_names(file)?;
    for section in sections_of(alloc, file, attribute_types(file.file_header().e_machine))? {
        let name = label_name(&names, &section.header);
        tell_section(note_file(file), name, section, tell)?;
    }
    Ok(())
}

// The types of sections that have build attributes, by the machine of the file.
fn attribute_types(machine: u16) -> &'static [u32]
    ensures { result.now ≡ attribute_types machine }
{
    match machine {
        abi::EM_ARM | abi::EM_AARCH64 | abi::EM_RISCV => &MACHINE_ATTRIBUTE_TYPES,
        _ => &ATTRIBUTE_TYPES,
    }
}

// Tells the build attributes of a section of this name, or why they are not listed.
fn tell_section<T: Tell>(
    file: NoteFile,
    name: &[u8],
    section: TypedSection<'_>,
    tell: &mut T,
) -> Result<(), Stop>
    ensures { let listed = section_view section.entry in OnOk result (tell.new ≡ saying T.one tell.old
        (section_said listed.number name.now (attributes_in file listed.bytes))) }
{
    if tell.is_silent() {
        return Ok(());
    }
    let number = section.number;
    tell.state(&layouts::ATTRIBUTES_HEADING, &heading_members(number, name))?;
    match section.bytes {
        Ok(bytes) => tell_build_attributes(file, number, bytes, tell),
        Err(fault) => tell.problem(Part::Section(number).whole(), &fault),
    }
}
