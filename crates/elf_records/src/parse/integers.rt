//! Numbers of four and eight bytes as records, for tables of words.
ghost use Rattle.std.specs.Prelude.{refl, true};

use crate::endian::EndianParse;
use crate::file::Class;
use crate::parse::{ParseAt, ParseError};

impl ParseAt for u32 {
    ghost use Rattle.elf_records.specs.Word.{u32_reads};

    const SHAPE: (usize, usize, bool) = (4, 4, true);

    ghost SHAPE = { (4, 4, true) };

    ghost reads = { u32_reads };

    ghost shape_law = { refl };

    #[tactic(auto, unfolding(crate::specs::Record::numbers_at, crate::specs::Record::numbers_end))]
    fn parse_at<E: EndianParse>(
        endian: E,
        class: Class,
        offset: &mut usize,
        data: &[u8],
    ) -> Result<Self, ParseError> {
        endian.parse_u32_at(offset, data)
    }
}

impl ParseAt for u64 {
    ghost use Rattle.elf_records.specs.Word.{u64_reads};

    const SHAPE: (usize, usize, bool) = (8, 8, true);

    ghost SHAPE = { (8, 8, true) };

    ghost reads = { u64_reads };

    ghost shape_law = { refl };

    #[tactic(auto, unfolding(crate::specs::Record::numbers_at, crate::specs::Record::numbers_end))]
    fn parse_at<E: EndianParse>(
        endian: E,
        class: Class,
        offset: &mut usize,
        data: &[u8],
    ) -> Result<Self, ParseError> {
        endian.parse_u64_at(offset, data)
    }
}
