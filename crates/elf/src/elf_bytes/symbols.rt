//! The symbols of a file, with their strings.
ghost use Rattle.std.specs.Prelude.{◌≡◌};
ghost use Rattle.std.specs.Option.{option_map};
ghost use Rattle.elf_records.specs.Number.{ok_map};
ghost use Rattle.elf.specs.Answers.{dynamic_symbol_table, first_symbols, symbol_table, symbols_in, symbols_of};
ghost use Rattle.elf.specs.Answers.{symbols_view};
ghost use Rattle.elf.specs.ObjectFile.{object_file};
ghost use Rattle.elf.specs.ElfBytes.{view};

use super::ElfBytes;
use crate::headers::{Headers, LinkedSections};
use elf_abi::abi;
use elf_parts::endian::EndianParse;
use elf_parts::parse::ParseError;
use elf_parts::section::SectionHeader;
use elf_parts::string_table::StringTable;
use elf_parts::symbol::SymbolTable;

impl<'data, E: EndianParse> ElfBytes<'data, E> {
    /// Returns the symbols in the range of the first section, and the strings in that of the second, as `with_linked`
    /// returns them. The errors are those of `section_range` for the first section, then for the second.
    pub fn symbols_in(
        &self,
        sections: &LinkedSections,
    ) -> Result<(SymbolTable<'data, E>, StringTable<'data>), ParseError>
        ensures { ok_map symbols_view result ≡ symbols_in (object_file E.little (view self.now)) sections.now }
    {
        let symbols = self.section_range(&sections.0)?;
        let strings = self.section_range(&sections.1)?;
        Ok((
            SymbolTable::new(self.ehdr.endianness, self.ehdr.class, symbols),
            StringTable::new(strings),
        ))
    }

    /// Returns the symbols of a section, and the strings of the section that its `sh_link` names.
    ///
    /// Errors, in order: that of `ParsingTable::get` for the section of the strings, or `BadOffset(sh_link)` if the file
    /// declares no section headers; `BadEntsize((found, expected))` if `sh_entsize` is not the size of a symbol; those of
    /// `symbols_in`.
    pub fn symbols_of(
        &self,
        shdr: &SectionHeader,
    ) -> Result<(SymbolTable<'data, E>, StringTable<'data>), ParseError>
        ensures { ok_map symbols_view result ≡ symbols_of (object_file E.little (view self.now)) shdr.now }
    {
        let sections = self.with_linked(shdr)?;
        self.symbols_in(&sections)
    }

    // The symbols of the first section of a type, with their strings.
    fn first_symbols(
        &self,
        sh_type: u32,
    ) -> Result<Option<(SymbolTable<'data, E>, StringTable<'data>)>, ParseError>
        ensures { ok_map (option_map symbols_view) result
            ≡ first_symbols sh_type (object_file E.little (view self.now)) }
    {
        match self.symbol_sections(sh_type)? {
            Some(sections) => self.symbols_in(&sections).map(Some),
            None => Ok(None),
        }
    }

    /// Returns the symbols of the first section of type `SHT_SYMTAB`, and the strings of the section that its `sh_link`
    /// names (gABI, chapter "Symbol Table"). Returns `None` if there is no section of this type.
    ///
    /// Errors, in order: that of `ParsingTable::get` for section header `sh_link`; `BadEntsize((found, expected))` if
    /// `sh_entsize` is not the size of a symbol; `IntegerOverflow` or `SliceReadError((start, end))` if the range of
    /// the symbols does not lie in the file; the same for the range of the strings.
    ///
    /// ```rust
    /// if let Some((symbols, names)) = file.symbol_table()? {
    ///     for symbol in symbols {
    ///         let name = names.get(symbol.st_name as usize)?;
    ///         println!(rt; "{:#x} {name}", symbol.st_value)?;
    ///     }
    /// }
    /// ```
    pub fn symbol_table(
        &self,
    ) -> Result<Option<(SymbolTable<'data, E>, StringTable<'data>)>, ParseError>
        ensures { ok_map (option_map symbols_view) result ≡ symbol_table (object_file E.little (view self.now)) }
    {
        self.first_symbols(abi::SHT_SYMTAB)
    }

    /// Returns the dynamic symbols, those of the first section of type `SHT_DYNSYM`, with their strings.
    /// Returns `None` if there is no section of this type. The errors are those of `symbol_table`.
    ///
    /// ```rust
    /// if let Some((symbols, names)) = file.dynamic_symbol_table()? {
    ///     for symbol in symbols.iter().filter(|symbol| symbol.is_undefined()) {
    ///         println!(rt; "{}", names.get(symbol.st_name as usize)?)?;
    ///     }
    /// }
    /// ```
    pub fn dynamic_symbol_table(
        &self,
    ) -> Result<Option<(SymbolTable<'data, E>, StringTable<'data>)>, ParseError>
        ensures { ok_map (option_map symbols_view) result
            ≡ dynamic_symbol_table (object_file E.little (view self.now)) }
    {
        self.first_symbols(abi::SHT_DYNSYM)
    }
}
