//! The names of the sections of a file, for what is told of them.
ghost use Rattle.std.specs.Prelude.{◌≡◌, Some};
ghost use Rattle.nugwier_report.specs.Labels.{first_of, label_at, label_name, label_of, label_seen, named_by};
ghost use Rattle.nugwier_report.specs.Labels.{number_of, section_name};

use crate::problem::Part;
use elf_abi::abi;
use elf_parts::file::Class;
use elf_parts::section::SectionHeader;
use elf_parts::string_table::TerminatedStrings;

/// What lines depend on of the file that they are about: its class, which gives the digits of its addresses, its sections,
/// and their names, if these are known.
#[derive(Drop)]
pub struct Labels<'a> {
    pub class: Class,
    pub sections: &'a [SectionHeader],
    pub names: Option<TerminatedStrings<'a>>,
}

/// No section has a name with which problems are told, and no line has an address.
pub const NO_LABELS: Labels<'static> = Labels {
    class: Class::ELF64,
    sections: &[],
    names: None,
};

impl<'a> Labels<'a> {
    /// Returns the number and the name of the section of a part of the file, if it is in one. A name that is not known
    /// is empty.
    pub fn of(&self, part: Part) -> Option<(u64, &'a [u8])>
        ensures { label_seen result ≡ label_of (named_by self.now) part }
    {
        let number = number_of(self.sections, part)?;
        let section = self.sections.get(number)?;
        Some((number as u64, label_name(&self.names, section)))
    }

    /// Returns the name of a section, or no name if it is not known or there is no such section.
    pub fn name_at(&self, number: usize) -> &'a [u8]
        ensures { result.now ≡ section_name (label_at (named_by self.now) (Some number)) }
    {
        match self.sections.get(number) {
            Some(section) => label_name(&self.names, section),
            None => &[],
        }
    }
}

// The number of the section that a part is in, if it is in one.
fn number_of(sections: &[SectionHeader], part: Part) -> Option<usize>
    ensures { result ≡ number_of sections.now part }
{
    match part {
        Part::Section(number) => Some(number as usize),
        Part::Symbols => first_of(abi::SHT_SYMTAB, sections),
        Part::DynamicSymbols => first_of(abi::SHT_DYNSYM, sections),
        Part::Versions => first_of(abi::SHT_GNU_VERSYM, sections),
        Part::Dynamic => first_of(abi::SHT_DYNAMIC, sections),
        _ => None,
    }
}

// The number of the first section of a type.
fn first_of(sh_type: u32, sections: &[SectionHeader]) -> Option<usize>
    ensures { result ≡ first_of sh_type sections.now }
{
    sections
        .iter()
        .position(|section| section.sh_type == sh_type)
}

/// Returns the name of a section, or no name if it cannot be read.
pub fn label_name<'a>(names: &Option<TerminatedStrings<'a>>, section: &SectionHeader) -> &'a [u8]
    ensures { result.now ≡ label_name names.now section.now }
{
    let Some(names) = names else {
        return &[];
    };
    match names.get_raw(section.sh_name as usize) {
        Ok(name) => name,
        Err(_) => &[],
    }
}
