//! Headers of compressed sections (gABI, chapter "Sections", "Section Compression").
ghost use Rattle.std.specs.Prelude.{refl, true};

use crate::endian::EndianParse;
use crate::file::Class;
use crate::parse::{ParseAt, ParseError};

/// The C structure of the header of a compressed section in a 32-bit file.
#[derive(Debug, Drop)]
#[repr(C)]
pub struct Elf32_Chdr {
    pub ch_type: u32,
    pub ch_size: u32,
    pub ch_addralign: u32,
}

/// The C structure of the header of a compressed section in a 64-bit file.
#[derive(Debug, Drop)]
#[repr(C)]
pub struct Elf64_Chdr {
    pub ch_type: u32,
    pub ch_reserved: u32,
    pub ch_size: u64,
    pub ch_addralign: u64,
}

/// The header at the front of a compressed section, of either class. `ch_type` is the algorithm (`ELFCOMPRESS_*`),
/// `ch_size` the size of the uncompressed data in bytes, `ch_addralign` their alignment.
#[derive(Clone, Debug, Drop, PartialEq, Eq)]
pub struct CompressionHeader {
    pub ch_type: u32,
    pub ch_size: u64,
    pub ch_addralign: u64,
}

impl ParseAt for CompressionHeader {
    ghost use Rattle.elf_records.specs.Compression.{compression_header_reads};

    const SHAPE: (usize, usize, bool) = (12, 24, true);

    ghost SHAPE = { (12, 24, true) };

    ghost reads = { compression_header_reads };

    ghost shape_law = { refl };

    #[tactic(auto, unfolding(crate::specs::Record::numbers_at, crate::specs::Record::numbers_end))]
    fn parse_at<E: EndianParse>(
        endian: E,
        class: Class,
        offset: &mut usize,
        data: &[u8],
    ) -> Result<Self, ParseError> {
        match class {
            Class::ELF32 => {
                let ch_type = endian.parse_u32_at(offset, data)?;
                let ch_size = endian.parse_u32_at(offset, data)? as u64;
                let ch_addralign = endian.parse_u32_at(offset, data)? as u64;
                Ok(CompressionHeader {
                    ch_type,
                    ch_size,
                    ch_addralign,
                })
            }
            Class::ELF64 => {
                let ch_type = endian.parse_u32_at(offset, data)?;
                // The reserved word.
                let _ = endian.parse_u32_at(offset, data)?;
                let ch_size = endian.parse_u64_at(offset, data)?;
                let ch_addralign = endian.parse_u64_at(offset, data)?;
                Ok(CompressionHeader {
                    ch_type,
                    ch_size,
                    ch_addralign,
                })
            }
        }
    }
}
