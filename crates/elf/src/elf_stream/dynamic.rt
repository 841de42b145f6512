//! The dynamic entries of a stream.
ghost use Rattle.std.specs.Prelude.{Ok, Some};
ghost use Rattle.std.specs.Option.{option_map};
ghost use Rattle.elf_records.specs.Table.{table_view};
ghost use Rattle.elf.specs.Answers.{dynamic};
ghost use Rattle.elf.specs.Ranges.{dynamic_ranges, headers_alone, section_dynamic_ranges};
ghost use Rattle.elf.specs.Headers.{first_section_of, first_segment_of};
ghost use Rattle.elf.specs.inner.Loads.{Loads};

use super::ElfStream;
use crate::headers::Headers;
use crate::read_error::given;
use crate::reader;
use elf_abi::abi;
use elf_parts::dynamic::{Dyn, DynamicTable};
use elf_parts::endian::EndianParse;
use elf_parts::parse::{ParseAt, ParseError};
use elf_parts::section::SectionHeader;
use elf_reading::source::StreamSource;
use std::alloc::Allocator;

impl<E: EndianParse, S: StreamSource, A: Allocator + Copy> ElfStream<E, S, A> {
    ghost use Rattle.std.specs.Borrow.{sem};
    ghost use Rattle.elf.specs.Lending.{Lends};

    // Reads the range of a section of dynamic entries into the cache, if its entries have the size of an entry.
    fn load_section_dynamic(&mut self, shdr: &SectionHeader) -> Result<(), ParseError>
        ensures { Loads (section_dynamic_ranges (headers_alone E.little self.old) shdr.now) self.old self.new result }
    {
        if Dyn::validate_entsize(self.ehdr.class, shdr.sh_entsize as usize).is_err() {
            return Ok(());
        }
        self.load_section_data(shdr)
    }

    // Reads the range of the dynamic entries into the cache, if there are any.
    fn load_dynamic(&mut self) -> Result<(), ParseError>
        ensures { Loads (dynamic_ranges (headers_alone E.little self.old)) self.old self.new result }
    {
        if self.declares_sections {
            match self.first_section_of(abi::SHT_DYNAMIC) {
                Some(shdr) => self.load_section_dynamic(&shdr),
                None => Ok(()),
            }
        } else {
            match self.first_segment_of(abi::PT_DYNAMIC) {
                Some(phdr) => self.load_segment(&phdr),
                None => Ok(()),
            }
        }
    }

    /// Returns the dynamic entries (gABI, chapter "Dynamic Section"). If the file declares section headers, they are
    /// those of the first section of type `SHT_DYNAMIC`; otherwise those of the first segment of type `PT_DYNAMIC`.
    /// Returns `None` if there is no such section or segment. Requests the range of the section or segment.
    ///
    /// Errors of a section, in order: `BadEntsize((found, expected))` if `sh_entsize` is not the size of an entry, with
    /// no range requested; those of `section_data`. Errors of a segment: those of `segment_data`.
    pub fn dynamic(&mut self) -> Result<Option<DynamicTable<'_, E>>, ParseError>
        ensures* leaves { sem 𝓛 (Lends E.row S.row A.row E.EndianParse S.StreamSource A.Allocator self.entry
            dynamic_ranges (option_map table_view) dynamic result) }
    {
        self.load_dynamic()?;
        self.is_part_of_file();
        given(reader::dynamic(&*self))
    }
}
