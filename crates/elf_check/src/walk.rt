//! What is checked of a file, stage by stage, and the fault of each subject.
ghost use Rattle.std.specs.Prelude.{◌≡◌, ℕ, List, IfSome, Option, Some, length};
ghost use Rattle.std.specs.Result.{result_ok};
ghost use Rattle.elf_abi.specs.Values.{sht_dynamic};
ghost use Rattle.elf.specs.ElfBytes.{view};
ghost use Rattle.elf.specs.Headers.{first_section_of};
ghost use Rattle.elf.specs.Names.{name_table};
ghost use Rattle.elf.specs.ObjectFile.{object_file};
ghost use Rattle.elf_check.specs.Stages.{count_of, subject_of};
ghost use Rattle.elf_check.specs.inner.Walk.{IsFaultIfAny};

use crate::faults::FileFault;
use crate::sections::{Names, names_fault, names_in, section_count, section_fault_at};
use crate::segments::faults_in::TypeRule;
use crate::segments::{faults_in as segments, segment_count};
use crate::types::type_fault;
use crate::versions::{definitions_fault_in, indexes_fault_in, needs_fault_in};
use elf::endian::EndianParse;
use elf::gnu_symver::{Needed, VerDefIterator};
use elf::headers::Headers;
use elf::section::SectionHeader;
use elf::{ElfBytes, abi};

// What is checked in turn, in the words of `Subject`: one subject, or those of all sections or segments.
#[derive(Copy, Clone)]
pub(crate) enum Stage {
    SectionNames,
    SingleType(u32),
    Sections,
    Needs,
    Definitions,
    Indexes,
    Types(TypeRule),
    Segments,
    LoadOrder,
}

// What is checked of a file, in order: of its sections, of versions, and of its segments.
pub(crate) const OF_FILE: [Stage; 18] = [
    Stage::SectionNames,
    Stage::SingleType(abi::SHT_SYMTAB),
    Stage::SingleType(abi::SHT_DYNSYM),
    Stage::SingleType(abi::SHT_DYNAMIC),
    Stage::SingleType(abi::SHT_GNU_VERSYM),
    Stage::SingleType(abi::SHT_GNU_VERNEED),
    Stage::SingleType(abi::SHT_GNU_VERDEF),
    Stage::Sections,
    Stage::Needs,
    Stage::Definitions,
    Stage::Indexes,
    Stage::Types(TypeRule::SingleInterp),
    Stage::Types(TypeRule::SingleDynamic),
    Stage::Types(TypeRule::SinglePhdr),
    Stage::Types(TypeRule::SingleTls),
    Stage::Types(TypeRule::PhdrFirst),
    Stage::Segments,
    Stage::LoadOrder,
];

// The place of the first stage of segments.
pub(crate) const OF_SEGMENTS: usize = 11;

// A file, and what is read once for all of its sections or segments.
#[derive(Drop)]
pub(crate) struct Walk<'a, 'data, E: EndianParse> {
    file: &'a ElfBytes<'data, E>,
    // None where sections are not walked over.
    names: Option<Names<'data>>,
    sections: usize,
    dynamic: Option<SectionHeader>,
    ghost named: { (known : Option (Option (List ℕ))) → names ≡ Some known →
        result_ok (name_table (object_file E.little (view file.now))) ≡ known },
    ghost counted: { sections ≡ length (object_file E.little (view file.now)).sections },
    ghost first: { first_section_of sht_dynamic (object_file E.little (view file.now)).sections ≡ dynamic },
}

impl<'a, 'data, E: EndianParse> Walk<'a, 'data, E> {
    pub(crate) fn new(
        file: &'a ElfBytes<'data, E>,
        names: Option<Names<'data>>,
    ) -> Walk<'a, 'data, E>
        requires { IfSome names (λ names. result_ok (name_table (object_file E.little (view file.now))) ≡ names) }
        ensures { object_file E.little (view result.file.now) ≡ object_file E.little (view file.now) }
    {
        Walk {
            file,
            names,
            sections: section_count(file),
            dynamic: file.first_section_of(abi::SHT_DYNAMIC),
        }
    }

    // How many subjects a stage has.
    pub(crate) fn count(&self, stage: Stage) -> usize
        ensures { result ≡ count_of (object_file E.little (view self.now.file.now)) stage }
    {
        match stage {
            Stage::Sections => self.sections,
            Stage::Segments => segment_count(self.file),
            _ => 1,
        }
    }

    // The fault of a subject of a stage, by its index.
    pub(crate) fn fault_at(
        &self,
        stage: Stage,
        index: usize,
        needed: &mut [Option<Needed>],
        defined: &mut [Option<VerDefIterator<'data, E>>],
    ) -> Option<FileFault>
        ensures { IsFaultIfAny (object_file E.little (view self.now.file.now)) (subject_of stage index) result }
    {
        match stage {
            Stage::SectionNames => names_fault(self.file),
            Stage::SingleType(sh_type) => type_fault(self.file, sh_type),
            Stage::Sections => match &self.names {
                Some(names) => section_fault_at(self.file, names, index, self.sections),
                None => section_fault_at(self.file, &names_in(self.file), index, self.sections),
            },
            Stage::Needs => needs_fault_in(self.file),
            Stage::Definitions => definitions_fault_in(self.file),
            Stage::Indexes => indexes_fault_in(self.file, needed, defined),
            Stage::Types(rule) => segments::types_fault(self.file, rule),
            Stage::Segments => segments::segment_fault_at(self.file, &self.dynamic, index),
            Stage::LoadOrder => segments::overlap_fault(self.file),
        }
    }
}
