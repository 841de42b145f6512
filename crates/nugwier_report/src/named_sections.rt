//! The sections that a word names: by their name, or by their number.
ghost use Rattle.std.specs.Prelude.{◌≡◌, IfOk};
ghost use Rattle.elf.specs.Names.{has_name};
ghost use Rattle.nugwier_report.specs.NamedSections.{first_named, is_named, number_in, numbered, or_numbered};
ghost use Rattle.nugwier_report.specs.NamedSections.{section_of_number, sections_named, sections_of};
ghost use Rattle.nugwier_report.specs.Whole.{file_of};

use crate::listed::ListedFile;
use crate::problem::Stop;
use elf::endian::EndianParse;
use elf::section::SectionHeader;
use elf::string_table::TerminatedStrings;
use std::alloc::Global;

/// Returns all sections that have the word as their name; or if none has, the one whose number it is.
pub fn sections_of<E: EndianParse, R: ListedFile<E>>(
    alloc: Global,
    file: &R,
    names: &Option<TerminatedStrings<'_>>,
    word: &str,
) -> Result<Vec<(usize, SectionHeader)>, Stop>
    ensures { IfOk result (λ sections. sections.items
        ≡ sections_of (file_of (R.file file.now) (R.bytes file.now)) names.now word.now) }
{
    let mut sections = sections_named(alloc, file.section_list(), names, word)?;
    if sections.is_empty()
        && let Some(one) = numbered(file, word)
    {
        sections.push(one)?;
    }
    Ok(sections)
}

/// Returns the first section that has the word as its name; or if none has, the one whose number it is.
pub fn section_of<E: EndianParse, R: ListedFile<E>>(
    file: &R,
    names: &Option<TerminatedStrings<'_>>,
    word: &str,
) -> Option<(usize, SectionHeader)>
    ensures { let whole = file_of (R.file file.now) (R.bytes file.now) in
        result ≡ or_numbered whole word.now (first_named whole.sections word.now names.now) }
{
    match first_named(file.section_list(), names, word) {
        Some(one) => Some(one),
        None => numbered(file, word),
    }
}

// The section whose number a word is.
fn numbered<E: EndianParse, R: ListedFile<E>>(
    file: &R,
    word: &str,
) -> Option<(usize, SectionHeader)>
    ensures { result ≡ numbered (file_of (R.file file.now) (R.bytes file.now)) word.now }
{
    section_of_number(file, number_in(word)?)
}

// The sections of a name, with their numbers.
fn sections_named(
    alloc: Global,
    sections: &[SectionHeader],
    names: &Option<TerminatedStrings<'_>>,
    name: &str,
) -> Result<Vec<(usize, SectionHeader)>, Stop>
    ensures { IfOk result (λ found. found.items ≡ sections_named sections.now name.now names.now) }
{
    let found = sections
        .iter()
        .copied()
        .enumerate()
        .filter(|one| is_named(names, &one.1, name))
        .collect(alloc)?;
    Ok(found)
}

/// Returns the first section of a name, with its number, if there are names.
pub fn first_named(
    sections: &[SectionHeader],
    names: &Option<TerminatedStrings<'_>>,
    name: &str,
) -> Option<(usize, SectionHeader)>
    ensures { result ≡ first_named sections.now name.now names.now }
{
    sections
        .iter()
        .copied()
        .enumerate()
        .find(|one| is_named(names, &one.1, name))
}

/// Returns whether a section has a name, if there are names.
pub fn is_named(names: &Option<TerminatedStrings<'_>>, section: &SectionHeader, name: &str) -> bool
    ensures { result ≡ is_named names.now name.now section.now }
{
    match names {
        Some(names) => has_name(names, section, name.as_bytes()),
        None => false,
    }
}

/// Returns whether a section has a name.
pub fn has_name(names: &TerminatedStrings<'_>, section: &SectionHeader, name: &[u8]) -> bool
    ensures { result ≡ has_name names.now name.now section.now }
{
    match names.is(section.sh_name as usize, name) {
        Ok(is_same) => is_same,
        Err(_) => false,
    }
}

// The number that a word is.
fn number_in(word: &str) -> Option<usize>
    ensures { result ≡ number_in word.now }
{
    word.parse().ok()
}

// The section of a number.
fn section_of_number<E: EndianParse, R: ListedFile<E>>(
    file: &R,
    number: usize,
) -> Option<(usize, SectionHeader)>
    ensures { result ≡ section_of_number (file_of (R.file file.now) (R.bytes file.now)) number }
{
    match file.section_at(number) {
        Ok(section) => Some((number, section)),
        Err(_) => None,
    }
}
