//! The symbols of a stream, with their strings.
ghost use Rattle.std.specs.Option.{option_map};
ghost use Rattle.elf_abi.specs.Values.{sht_dynsym, sht_symtab};
ghost use Rattle.elf.specs.Answers.{dynamic_symbol_table, first_symbols, symbol_table, symbols_view};
ghost use Rattle.elf.specs.Ranges.{both_sections, headers_alone, symbols_ranges};
ghost use Rattle.elf.specs.inner.Loads.{Loads};

use super::ElfStream;
use crate::headers::Headers;
use crate::read_error::given;
use crate::reader;
use elf_abi::abi;
use elf_parts::endian::EndianParse;
use elf_parts::parse::ParseError;
use elf_parts::section::SectionHeader;
use elf_parts::string_table::StringTable;
use elf_parts::symbol::SymbolTable;
use elf_reading::source::StreamSource;
use std::alloc::Allocator;

impl<E: EndianParse, S: StreamSource, A: Allocator + Copy> ElfStream<E, S, A> {
    ghost use Rattle.std.specs.Borrow.{sem};
    ghost use Rattle.elf.specs.Lending.{Lends};

    // Reads the ranges of two sections into the cache.
    pub(super) fn load_both(
        &mut self,
        shdr: &SectionHeader,
        linked: &SectionHeader,
    ) -> Result<(), ParseError>
        ensures { Loads (both_sections (shdr.now, linked.now)) self.old self.new result }
    {
        self.load_section(shdr)?;
        self.load_section(linked)
    }

    // Reads the ranges of the symbols and strings of the first section of a type into the cache, if there is one.
    fn load_symbols(&mut self, sh_type: u32) -> Result<(), ParseError>
        ensures { Loads (symbols_ranges sh_type (headers_alone E.little self.old)) self.old self.new result }
    {
        match self.symbol_sections(sh_type) {
            Ok(Some((shdr, linked))) => self.load_both(&shdr, &linked),
            _ => Ok(()),
        }
    }

    // The symbols of the first section of a type, with their strings.
    fn first_symbols(
        &mut self,
        sh_type: u32,
    ) -> Result<Option<(SymbolTable<'_, E>, StringTable<'_>)>, ParseError>
        ensures* leaves { sem 𝓛 (Lends E.row S.row A.row E.EndianParse S.StreamSource A.Allocator self.entry
            (symbols_ranges sh_type) (option_map symbols_view) (first_symbols sh_type) result) }
    {
        self.load_symbols(sh_type)?;
        self.is_part_of_file();
        given(reader::first_symbols(&*self, sh_type))
    }

    /// Returns the symbols of the first section of type `SHT_SYMTAB`, and the strings of the section that its `sh_link`
    /// names (gABI, chapter "Symbol Table"). Returns `None` if there is no section of this type. Requests the ranges of
    /// both sections.
    ///
    /// Errors, in order: `BadOffset(sh_link)` if there is no such section; `BadEntsize((found, expected))` if
    /// `sh_entsize` is not the size of a symbol; that of the range of the symbols; that of the range of the strings.
    pub fn symbol_table(
        &mut self,
    ) -> Result<Option<(SymbolTable<'_, E>, StringTable<'_>)>, ParseError>
        ensures* leaves { sem 𝓛 (Lends E.row S.row A.row E.EndianParse S.StreamSource A.Allocator self.entry
            (symbols_ranges sht_symtab) (option_map symbols_view) symbol_table result) }
    {
        self.first_symbols(abi::SHT_SYMTAB)
    }

    /// Returns the dynamic symbols, those of the first section of type `SHT_DYNSYM`, with their strings.
    /// Returns `None` if there is no section of this type. Ranges and errors are those of `symbol_table`.
    ///
    /// ```rust
    /// if let Some((symbols, names)) = stream.dynamic_symbol_table()? {
    ///     for symbol in symbols {
    ///         println!(rt; "{}", names.get(symbol.st_name as usize)?)?;
    ///     }
    /// }
    /// ```
    pub fn dynamic_symbol_table(
        &mut self,
    ) -> Result<Option<(SymbolTable<'_, E>, StringTable<'_>)>, ParseError>
        ensures* leaves { sem 𝓛 (Lends E.row S.row A.row E.EndianParse S.StreamSource A.Allocator self.entry
            (symbols_ranges sht_dynsym) (option_map symbols_view) dynamic_symbol_table result) }
    {
        self.first_symbols(abi::SHT_DYNSYM)
    }
}
