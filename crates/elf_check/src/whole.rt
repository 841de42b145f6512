//! A file that was checked.
ghost use Rattle.std.specs.Prelude.{◌≡◌, IfSome, MatchOption, None, Ok, length};
ghost use Rattle.std.specs.Option.{IsSomeAnd, option_map};
ghost use Rattle.elf_abi.specs.Values.{sht_dynamic};
ghost use Rattle.elf_check.specs.Dynamic.{dynamic_entries};
ghost use Rattle.std.specs.Result.{result_ok};
ghost use Rattle.elf_records.specs.StringTable.{strings_view};
ghost use Rattle.elf.specs.ElfBytes.{view};
ghost use Rattle.elf.specs.Headers.{first_section_of};
ghost use Rattle.elf.specs.Names.{name_table};
ghost use Rattle.elf.specs.ObjectFile.{object_file};
ghost use Rattle.elf.specs.Answers.{dynamic_symbol_table, symbol_table, symbol_version_table, symbols_view};
ghost use Rattle.elf_check.specs.LoadPlan.{IsPlan, load_plan};
ghost use Rattle.elf_check.specs.Sound.{SoundFile};
ghost use Rattle.elf_check.specs.Symbols.{SoundSymbolTable};
ghost use Rattle.elf_check.specs.inner.SoundProps.{HasNameTable, HasNameTable-prop, SoundFile-prop};

use crate::segments::{WholeLoads, WholeSegments};
use elf::endian::EndianParse;
use elf::headers::Headers;
use elf::readers::sections_are_listed;
use elf::string_table::StringTable;
use elf::symbol::SymbolTable;
use elf::{ElfBytes, abi};

mod build_id;
mod check;
mod dynamic;
mod dynamic_section;
mod hash_section;
mod iter;
mod names;
mod relocations;
mod relocations_section;
mod section;
mod sections;
mod strings;
mod symbols;
mod versions;

pub use check::{check_file, check_file_in};
pub use dynamic::WholeDynamic;
pub use iter::WholeSymbolsIter;
pub use names::WholeNames;
pub use relocations::WholeRelocations;
pub use section::WholeSection;
pub use sections::WholeSections;
pub use strings::WholeStrings;
pub use symbols::WholeSymbols;
pub use versions::{WholeDefinition, WholeVersion, WholeVersions};

/// A file whose parts can all be read. It has what `ElfBytes` has, and returns no errors:
///
/// - sections: `sections`, `section`, `section_by_name`, `first_section_of`, and of each `WholeSection::header`, `name`
///   and `data`;
/// - what a section holds, by its type: `WholeSection::strings`, `symbols`, `rels`, `relas`, `notes`, `dynamic` and
///   `hash_table`, each `None` for other types;
/// - the symbols, dynamic entries, versions and the hash table of a file: `symbols`, `dynamic_symbols`, `dynamic`,
///   `versions`, `hash_table`;
/// - segments: `segments`, and of these `WholeSegments::get`, `iter`, `notes`, `dynamic` and `interpreter`;
///   what a loader maps: `load_plan`.
#[derive(Debug, Drop)]
pub struct WholeFile<'a, 'data, E: EndianParse> {
    file: &'a ElfBytes<'data, E>,
    names: Option<StringTable<'data>>,
    sections: usize,
    ghost sound: { SoundFile (object_file E.little (view file.now)) } by { SoundFile-prop (object_file E.little (view
        file.now)) },
    ghost named: { HasNameTable (object_file E.little (view file.now))
        (option_map strings_view names) } by { HasNameTable-prop
            (object_file E.little (view file.now)) (option_map strings_view names) },
    ghost counted: { sections ≡ length (object_file E.little (view file.now)).sections },
}

impl<'a, 'data, E: EndianParse> WholeFile<'a, 'data, E> {
    ghost use Rattle.elf_check.specs.DynamicViews.{entries_left};
    ghost use Rattle.elf_check.specs.LoadPlan.{loads_left};
    ghost use Rattle.elf_check.specs.Whole.{section_file, section_header, whole_symbols, whole_view};
    ghost use Rattle.elf_check.specs.versions.Views.{whole_versions};
    ghost use Rattle.elf_check.specs.SegmentsWhole.{segments_file};

    /// The file that was checked.
    pub fn file(&self) -> &'a ElfBytes<'data, E>
        ensures same { whole_view E.little self.now ≡ object_file E.little (view result.now) }
        ensures sound { SoundFile (whole_view E.little self.now) }
    {
        self.file
    }

    // The symbols of the first section of a type of symbols.
    fn first_symbols(
        &self,
        found: Option<(SymbolTable<'data, E>, StringTable<'data>)>,
    ) -> Option<WholeSymbols<'data, E>>
        requires { IfSome (option_map symbols_view found) (λ one. SoundSymbolTable self.now.sections one.0 one.1) }
        ensures { option_map whole_symbols result ≡ option_map symbols_view found.entry }
    {
        match found {
            Some((symbols, strings)) => Some(WholeSymbols::new(symbols, strings, self.sections)),
            None => None,
        }
    }

    /// The symbols of the first section of type `SHT_SYMTAB`, or `None` exactly if there is no such section.
    pub fn symbols(&self) -> Option<WholeSymbols<'data, E>>
        ensures { symbol_table (whole_view E.little self.now) ≡ Ok (option_map whole_symbols result) }
    {
        sections_are_listed(self.file);
        self.first_symbols(self.file.symbol_table().unwrap())
    }

    /// The dynamic symbols, those of the first section of type `SHT_DYNSYM`, or `None` exactly if there is
    /// no such section.
    pub fn dynamic_symbols(&self) -> Option<WholeSymbols<'data, E>>
        ensures { dynamic_symbol_table (whole_view E.little self.now) ≡ Ok (option_map whole_symbols result) }
    {
        sections_are_listed(self.file);
        self.first_symbols(self.file.dynamic_symbol_table().unwrap())
    }

    /// The versions of the symbols, or `None` exactly if there is no section of version indexes.
    pub fn versions(&self) -> Option<WholeVersions<'data, E>>
        ensures { symbol_version_table (whole_view E.little self.now) ≡ Ok (option_map whole_versions result) }
    {
        match self.file.symbol_version_table().unwrap() {
            Some(table) => Some(WholeVersions::new(table)),
            None => None,
        }
    }

    /// The segments, each with its bytes; none if the file declares no program headers.
    pub fn segments(&self) -> WholeSegments<'a, 'data, E>
        ensures { segments_file E.little result ≡ whole_view E.little self.now }
    {
        WholeSegments::new(self.file)
    }

    /// What a loader maps: the segments of type `PT_LOAD` in the order of their addresses, each with its bytes in the
    /// file. Each has memory for its bytes, and addresses of the file's class, and no address belongs to two.
    pub fn load_plan(&self) -> WholeLoads<'a, 'data, E>
        ensures items { loads_left E.little result ≡ load_plan (whole_view E.little self.now) }
        ensures plan { let whole = whole_view E.little self.now in IsPlan whole.class (load_plan whole) }
    {
        self.segments().load_plan()
    }

    /// The first section of a type, or `None` exactly if there is none.
    pub fn first_section_of(&self, sh_type: u32) -> Option<WholeSection<'a, 'data, E>>
        ensures header { option_map section_header result
            ≡ first_section_of sh_type (whole_view E.little self.now).sections }
        ensures same { IfSome result (λ s. section_file E.little s ≡ whole_view E.little self.now) }
    {
        sections_are_listed(self.file);
        match self.file.first_section_of(sh_type) {
            Some(header) => Some(WholeSection::new(self.file, self.names, self.sections, header)),
            None => None,
        }
    }

    /// The dynamic entries of the first section of type `SHT_DYNAMIC`, each with the string that it names, or `None`
    /// exactly if there is no such section.
    pub fn dynamic(&self) -> Option<WholeDynamic<'data, E>>
        ensures { let whole = whole_view E.little self.now in
            MatchOption result (first_section_of sht_dynamic whole.sections ≡ None) (λ entries.
            IsSomeAnd (first_section_of sht_dynamic whole.sections) (λ s.
            dynamic_entries whole s ≡ Ok (entries_left entries))) }
    {
        match self.first_section_of(abi::SHT_DYNAMIC) {
            Some(section) => Some(section.dynamic_entries()),
            None => None,
        }
    }

    /// The section of an index, or `None` exactly if there is none.
    pub fn section(&self, index: usize) -> Option<WholeSection<'a, 'data, E>>
        ensures header { option_map section_header result ≡ result_ok ((whole_view E.little self.now).section_at
            index) }
        ensures same { IfSome result (λ s. section_file E.little s ≡ whole_view E.little self.now) }
    {
        match self.file.section_at(index) {
            Ok(header) => Some(WholeSection::new(self.file, self.names, self.sections, header)),
            Err(_) => None,
        }
    }
}
