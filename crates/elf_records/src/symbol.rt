//! Symbols and tables of them (gABI, chapter "Symbol Table").
ghost use Rattle.std.specs.Prelude.{◌≡◌, ◌==◌, refl, true};
ghost use Rattle.elf_abi.specs.Values.{shn_undef};
ghost use Rattle.elf_records.specs.Symbol.{symbol_binding, symbol_type, symbol_visibility};

use crate::endian::EndianParse;
use crate::file::Class;
use crate::parse::{ParseAt, ParseError, ParsingTable};
use elf_abi::abi;

/// A table of symbols.
pub type SymbolTable<'data, E> = ParsingTable<'data, E, Symbol>;

/// The C structure of a symbol in a 32-bit file.
#[derive(Debug, Drop)]
#[repr(C)]
pub struct Elf32_Sym {
    pub st_name: u32,
    pub st_value: u32,
    pub st_size: u32,
    pub st_info: u8,
    pub st_other: u8,
    pub st_shndx: u16,
}

/// The C structure of a symbol in a 64-bit file.
#[derive(Debug, Drop)]
#[repr(C)]
pub struct Elf64_Sym {
    pub st_name: u32,
    pub st_info: u8,
    pub st_other: u8,
    pub st_shndx: u16,
    pub st_value: u64,
    pub st_size: u64,
}

/// A symbol of either class. `st_name` is an offset into a string table, `st_size` is in bytes.
#[derive(Clone, Debug, Drop, PartialEq, Eq)]
pub struct Symbol {
    pub st_name: u32,
    pub st_shndx: u16,
    /// The binding in the upper four bits, the type in the lower four.
    pub st_info: u8,
    /// The visibility in the lowest two bits.
    pub st_other: u8,
    pub st_value: u64,
    pub st_size: u64,
}

impl Symbol {
    /// Returns whether the symbol is undefined: `st_shndx` is `SHN_UNDEF` (0).
    pub fn is_undefined(&self) -> bool
        ensures { result ≡ (self.now.st_shndx == shn_undef) }
    {
        self.st_shndx == abi::SHN_UNDEF
    }

    /// Returns the type (`STT_*`): the lower four bits of `st_info`.
    pub fn st_symtype(&self) -> u8
        ensures { result ≡ symbol_type self.now }
    {
        self.st_info & 0xf
    }

    /// Returns the binding (`STB_*`): the upper four bits of `st_info`.
    pub fn st_bind(&self) -> u8
        ensures { result ≡ symbol_binding self.now }
    {
        self.st_info >> 4
    }

    /// Returns the visibility (`STV_*`): the lowest two bits of `st_other`.
    pub fn st_vis(&self) -> u8
        ensures { result ≡ symbol_visibility self.now }
    {
        self.st_other & 0x3
    }
}

impl ParseAt for Symbol {
    ghost use Rattle.elf_records.specs.Symbol.{symbol_reads};

    const SHAPE: (usize, usize, bool) = (16, 24, true);

    ghost SHAPE = { (16, 24, true) };

    ghost reads = { symbol_reads };

    ghost shape_law = { refl };

    #[tactic(auto, unfolding(crate::specs::Record::numbers_at, crate::specs::Record::numbers_end))]
    #[inline(always)]
    fn parse_at<E: EndianParse>(
        endian: E,
        class: Class,
        offset: &mut usize,
        data: &[u8],
    ) -> Result<Self, ParseError> {
        match class {
            Class::ELF32 => {
                let st_name = endian.parse_u32_at(offset, data)?;
                let st_value = endian.parse_u32_at(offset, data)? as u64;
                let st_size = endian.parse_u32_at(offset, data)? as u64;
                let st_info = endian.parse_u8_at(offset, data)?;
                let st_other = endian.parse_u8_at(offset, data)?;
                let st_shndx = endian.parse_u16_at(offset, data)?;
                Ok(Symbol {
                    st_name,
                    st_shndx,
                    st_info,
                    st_other,
                    st_value,
                    st_size,
                })
            }
            Class::ELF64 => {
                let st_name = endian.parse_u32_at(offset, data)?;
                let st_info = endian.parse_u8_at(offset, data)?;
                let st_other = endian.parse_u8_at(offset, data)?;
                let st_shndx = endian.parse_u16_at(offset, data)?;
                let st_value = endian.parse_u64_at(offset, data)?;
                let st_size = endian.parse_u64_at(offset, data)?;
                Ok(Symbol {
                    st_name,
                    st_shndx,
                    st_info,
                    st_other,
                    st_value,
                    st_size,
                })
            }
        }
    }
}
