//! A section of a file that was checked.
ghost use Rattle.std.specs.Prelude.{◌≡◌, MatchOption, Ok, length};
ghost use Rattle.std.specs.Option.{option_map};
ghost use Rattle.elf_records.specs.StringTable.{strings_view};
ghost use Rattle.elf.specs.Answers.{section_data_as_notes, symbols_of};
ghost use Rattle.elf.specs.Data.{section_data};
ghost use Rattle.elf.specs.ElfBytes.{view};
ghost use Rattle.elf.specs.ObjectFile.{object_file};
ghost use Rattle.elf_reading.specs.Leading.{data_view};
ghost use Rattle.std.specs.Prelude.{◌≢◌};
ghost use Rattle.elf_abi.specs.Values.{sht_note};
ghost use Rattle.elf_parts.specs.Note.{notes_left};
ghost use Rattle.elf_check.specs.Notes.{SoundNotes};
ghost use Rattle.elf_check.specs.Sections.{SoundSection, section_name};
ghost use Rattle.elf_check.specs.Sound.{SoundFile};
ghost use Rattle.elf_check.specs.Symbols.{HoldsSymbols};
ghost use Rattle.elf_check.specs.inner.SoundProps.{HasNameTable, HasNameTable-prop, SoundFile-prop, SoundSection-prop};

use super::symbols::WholeSymbols;
use crate::sections::symbols_in;
use elf::compression::CompressionHeader;
use elf::endian::EndianParse;
use elf::headers::Headers;
use elf::note::NoteIterator;
use elf::section::SectionHeader;
use elf::string_table::StringTable;
use elf::{ElfBytes, abi};

/// A section of a file that was checked: what it declares can be read.
#[derive(Debug, Drop)]
pub struct WholeSection<'a, 'data, E: EndianParse> {
    pub(super) file: &'a ElfBytes<'data, E>,
    names: Option<StringTable<'data>>,
    pub(super) sections: usize,
    pub(super) header: SectionHeader,
    ghost whole: { SoundFile (object_file E.little (view file.now)) } by { SoundFile-prop (object_file E.little (view
        file.now)) },
    ghost sound: { SoundSection (object_file E.little (view file.now)) header } by { SoundSection-prop (object_file
        E.little (view file.now)) header },
    ghost named: { HasNameTable (object_file E.little (view file.now))
        (option_map strings_view names) } by { HasNameTable-prop
            (object_file E.little (view file.now)) (option_map strings_view names) },
    ghost counted: { sections ≡ length (object_file E.little (view file.now)).sections },
}

impl<'a, 'data, E: EndianParse> WholeSection<'a, 'data, E> {
    ghost use Rattle.elf_check.specs.Whole.{section_file, section_header, whole_symbols};

    pub(super) fn new(
        file: &'a ElfBytes<'data, E>,
        names: Option<StringTable<'data>>,
        sections: usize,
        header: SectionHeader,
    ) -> Self
        requires whole { SoundFile (object_file E.little (view file.now)) }
        requires sound { SoundSection (object_file E.little (view file.now)) header }
        requires named { HasNameTable (object_file E.little (view file.now)) (option_map strings_view names) }
        requires counted { sections ≡ length (object_file E.little (view file.now)).sections }
        ensures same { section_file E.little result ≡ object_file E.little (view file.now) }
        ensures header { section_header result ≡ header }
    {
        WholeSection {
            file,
            names,
            sections,
            header,
        }
    }

    /// The header.
    pub fn header(&self) -> &SectionHeader
        ensures { result.now ≡ section_header self.now }
    {
        &self.header
    }

    /// The bytes of the name, or `None` exactly if the file has no table of names.
    pub fn name(&self) -> Option<&'data [u8]>
        ensures { section_name (section_file E.little self.now) (section_header self.now)
            ≡ Ok (option_map (λ name. name.now) result) }
    {
        let names = self.names?;
        Some(names.get_raw(self.header.sh_name as usize).unwrap())
    }

    /// The bytes, and the compression header if there is one.
    pub fn data(&self) -> (&'data [u8], Option<CompressionHeader>)
        ensures { section_data (section_file E.little self.now) (section_header self.now) ≡ Ok (data_view result) }
    {
        self.file.section_data(&self.header).unwrap()
    }

    // The symbols of a section that holds some.
    fn symbol_table(&self) -> WholeSymbols<'data, E>
        requires { HoldsSymbols (section_header self.now) }
        ensures { symbols_of (section_file E.little self.now) (section_header self.now) ≡ Ok (whole_symbols result) }
    {
        let pair = self.file.with_linked(&self.header).unwrap();
        let (symbols, strings) = symbols_in(self.file, &pair).unwrap();
        WholeSymbols::new(symbols, strings, self.sections)
    }

    /// The symbols with their names, or `None` exactly if the section holds no symbols.
    pub fn symbols(&self) -> Option<WholeSymbols<'data, E>>
        ensures { MatchOption result (¬ HoldsSymbols (section_header self.now)) (λ symbols.
            symbols_of (section_file E.little self.now) (section_header self.now) ≡ Ok (whole_symbols symbols)) }
    {
        match self.header.sh_type {
            abi::SHT_SYMTAB | abi::SHT_DYNSYM => Some(self.symbol_table()),
            _ => None,
        }
    }

    /// The notes, which fill the section, or `None` exactly if the section is not one of notes.
    pub fn notes(&self) -> Option<NoteIterator<'data, E>>
        ensures items { MatchOption result ((section_header self.now).sh_type ≢ sht_note) (λ notes.
            section_data_as_notes (section_file E.little self.now) (section_header self.now) ≡ Ok (notes_left notes)) }
        ensures fill { (section_header self.now).sh_type ≡ sht_note
            → SoundNotes (section_file E.little self.now) (section_header self.now) }
    {
        if self.header.sh_type == abi::SHT_NOTE {
            Some(self.file.section_data_as_notes(&self.header).unwrap())
        } else {
            None
        }
    }
}
