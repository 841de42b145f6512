//! The records of the version sections (GNU symbol versioning). They are the same in both classes.
ghost use Rattle.std.specs.Prelude.{◌≡◌, ◌==◌, ◌+◌, refl, true};
ghost use Rattle.elf_abi.specs.Values.{ver_ndx_global, ver_ndx_local};
ghost use Rattle.elf_parts.specs.gnu_symver.Links.{links_in, links_left, links_view};
ghost use Rattle.elf_parts.specs.gnu_symver.Records.{version_index, version_is_hidden};

use super::links::{Linked, Links, VersionEntry};
use crate::endian::EndianParse;
use crate::file::Class;
use crate::parse::{ParseAt, ParseError, ParsingTable};
use elf_abi::abi;

/// A need: a file from which versions are needed. `vn_cnt` is the number of its auxiliary entries, `vn_file` the
/// offset of the file's name in the linked strings, in bytes. A version field other than 1 is `UnsupportedVersion`.
#[derive(Debug, Drop, PartialEq, Eq)]
pub struct VerNeed {
    pub vn_cnt: u16,
    pub vn_file: u32,
    vn_aux: u32,
    vn_next: u32,
}

impl VerNeed {
    ghost use Rattle.elf_parts.specs.gnu_symver.Records.{ver_need_aux_reads};

    /// Returns the auxiliary entries of this need, which begins at the offset `start` of the data in which `needs` lie.
    pub fn aux_links<'data, E: EndianParse>(
        &self,
        needs: &Links<'data, E, VerNeed>,
        start: usize,
    ) -> Links<'data, E, VerNeedAux>
        ensures items { links_left ver_need_aux_reads.record_at (λ x. x.vna_next) result
            ≡ links_in ver_need_aux_reads.record_at (λ x. x.vna_next) (links_view needs.now) self.now.vn_cnt
            (start + self.now.vn_aux) }
        ensures view { links_view result ≡ links_view needs.now }
    {
        needs.aux(start, self.vn_cnt, self.vn_aux)
    }
}

impl ParseAt for VerNeed {
    ghost use Rattle.elf_parts.specs.gnu_symver.Records.{ver_need_reads};

    const SHAPE: (usize, usize, bool) = (16, 16, true);

    ghost SHAPE = { (16, 16, true) };

    ghost reads = { ver_need_reads };

    ghost shape_law = { refl };

    #[tactic(auto, unfolding(elf_records::specs::Record::numbers_at, elf_records::specs::Record::numbers_end))]
    #[inline(always)]
    fn parse_at<E: EndianParse>(
        endian: E,
        _class: Class,
        offset: &mut usize,
        data: &[u8],
    ) -> Result<Self, ParseError> {
        let version = endian.parse_u16_at(offset, data)?;
        if version != abi::VER_NEED_CURRENT {
            return Err(ParseError::UnsupportedVersion((
                version as u64,
                abi::VER_NEED_CURRENT as u64,
            )));
        }
        Ok(VerNeed {
            vn_cnt: endian.parse_u16_at(offset, data)?,
            vn_file: endian.parse_u32_at(offset, data)?,
            vn_aux: endian.parse_u32_at(offset, data)?,
            vn_next: endian.parse_u32_at(offset, data)?,
        })
    }
}

impl Linked for VerNeed {
    ghost next_distance = { λ x. x.vn_next };

    fn distance(&self) -> u32 {
        self.vn_next
    }
}

impl VersionEntry for VerNeed {
    ghost use Rattle.elf_parts.specs.gnu_symver.Lists.{ver_need_with_aux};

    type Aux = VerNeedAux;

    ghost with_aux = { ver_need_with_aux };

    fn aux<'data, E: EndianParse>(
        &self,
        entries: &Links<'data, E, VerNeed>,
        start: usize,
    ) -> Links<'data, E, VerNeedAux> {
        self.aux_links(entries, start)
    }
}

/// A version that is needed of a file. `vna_other` is its version index, `vna_name` the offset of its name in the
/// linked strings, in bytes, and `vna_hash` the SysV hash of the name as the file states it.
#[derive(Debug, Drop, PartialEq, Eq)]
pub struct VerNeedAux {
    pub vna_hash: u32,
    pub vna_flags: u16,
    pub vna_other: u16,
    pub vna_name: u32,
    vna_next: u32,
}

impl ParseAt for VerNeedAux {
    ghost use Rattle.elf_parts.specs.gnu_symver.Records.{ver_need_aux_reads};

    const SHAPE: (usize, usize, bool) = (16, 16, true);

    ghost SHAPE = { (16, 16, true) };

    ghost reads = { ver_need_aux_reads };

    ghost shape_law = { refl };

    #[tactic(auto, unfolding(elf_records::specs::Record::numbers_at, elf_records::specs::Record::numbers_end))]
    #[inline(always)]
    fn parse_at<E: EndianParse>(
        endian: E,
        _class: Class,
        offset: &mut usize,
        data: &[u8],
    ) -> Result<Self, ParseError> {
        Ok(VerNeedAux {
            vna_hash: endian.parse_u32_at(offset, data)?,
            vna_flags: endian.parse_u16_at(offset, data)?,
            vna_other: endian.parse_u16_at(offset, data)?,
            vna_name: endian.parse_u32_at(offset, data)?,
            vna_next: endian.parse_u32_at(offset, data)?,
        })
    }
}

impl Linked for VerNeedAux {
    ghost next_distance = { λ x. x.vna_next };

    fn distance(&self) -> u32 {
        self.vna_next
    }
}

/// A definition of a version. `vd_ndx` is its version index, `vd_cnt` the number of its names, and `vd_hash` the
/// SysV hash of its name as the file states it. A version field other than 1 is `UnsupportedVersion`.
#[derive(Debug, Drop, PartialEq, Eq)]
pub struct VerDef {
    pub vd_flags: u16,
    pub vd_ndx: u16,
    pub vd_cnt: u16,
    pub vd_hash: u32,
    vd_aux: u32,
    vd_next: u32,
}

impl VerDef {
    ghost use Rattle.elf_parts.specs.gnu_symver.Records.{ver_def_aux_reads};

    /// Returns the names of this definition, which begins at the offset `start` of the data in which `definitions` lie.
    pub fn aux_links<'data, E: EndianParse>(
        &self,
        definitions: &Links<'data, E, VerDef>,
        start: usize,
    ) -> Links<'data, E, VerDefAux>
        ensures items { links_left ver_def_aux_reads.record_at (λ x. x.vda_next) result
            ≡ links_in ver_def_aux_reads.record_at (λ x. x.vda_next) (links_view definitions.now) self.now.vd_cnt
            (start + self.now.vd_aux) }
        ensures view { links_view result ≡ links_view definitions.now }
    {
        definitions.aux(start, self.vd_cnt, self.vd_aux)
    }
}

impl ParseAt for VerDef {
    ghost use Rattle.elf_parts.specs.gnu_symver.Records.{ver_def_reads};

    const SHAPE: (usize, usize, bool) = (20, 20, true);

    ghost SHAPE = { (20, 20, true) };

    ghost reads = { ver_def_reads };

    ghost shape_law = { refl };

    #[tactic(auto, unfolding(elf_records::specs::Record::numbers_at, elf_records::specs::Record::numbers_end))]
    #[inline(always)]
    fn parse_at<E: EndianParse>(
        endian: E,
        _class: Class,
        offset: &mut usize,
        data: &[u8],
    ) -> Result<Self, ParseError> {
        let version = endian.parse_u16_at(offset, data)?;
        if version != abi::VER_DEF_CURRENT {
            return Err(ParseError::UnsupportedVersion((
                version as u64,
                abi::VER_DEF_CURRENT as u64,
            )));
        }
        Ok(VerDef {
            vd_flags: endian.parse_u16_at(offset, data)?,
            vd_ndx: endian.parse_u16_at(offset, data)?,
            vd_cnt: endian.parse_u16_at(offset, data)?,
            vd_hash: endian.parse_u32_at(offset, data)?,
            vd_aux: endian.parse_u32_at(offset, data)?,
            vd_next: endian.parse_u32_at(offset, data)?,
        })
    }
}

impl Linked for VerDef {
    ghost next_distance = { λ x. x.vd_next };

    fn distance(&self) -> u32 {
        self.vd_next
    }
}

impl VersionEntry for VerDef {
    ghost use Rattle.elf_parts.specs.gnu_symver.Lists.{ver_def_with_aux};

    type Aux = VerDefAux;

    ghost with_aux = { ver_def_with_aux };

    fn aux<'data, E: EndianParse>(
        &self,
        entries: &Links<'data, E, VerDef>,
        start: usize,
    ) -> Links<'data, E, VerDefAux> {
        self.aux_links(entries, start)
    }
}

/// A name of a definition: its own, or that of a version on which it builds. `vda_name` is the offset of the name
/// in the linked strings, in bytes.
#[derive(Debug, Drop, PartialEq, Eq)]
pub struct VerDefAux {
    pub vda_name: u32,
    vda_next: u32,
}

impl ParseAt for VerDefAux {
    ghost use Rattle.elf_parts.specs.gnu_symver.Records.{ver_def_aux_reads};

    const SHAPE: (usize, usize, bool) = (8, 8, true);

    ghost SHAPE = { (8, 8, true) };

    ghost reads = { ver_def_aux_reads };

    ghost shape_law = { refl };

    #[tactic(auto, unfolding(elf_records::specs::Record::numbers_at, elf_records::specs::Record::numbers_end))]
    #[inline(always)]
    fn parse_at<E: EndianParse>(
        endian: E,
        _class: Class,
        offset: &mut usize,
        data: &[u8],
    ) -> Result<Self, ParseError> {
        Ok(VerDefAux {
            vda_name: endian.parse_u32_at(offset, data)?,
            vda_next: endian.parse_u32_at(offset, data)?,
        })
    }
}

impl Linked for VerDefAux {
    ghost next_distance = { λ x. x.vda_next };

    fn distance(&self) -> u32 {
        self.vda_next
    }
}

/// The version index of a symbol: the lower 15 bits are the index, bit 15 says that it is hidden.
#[derive(Debug, Drop, PartialEq, Eq)]
pub struct VersionIndex(pub u16);

/// The version indexes of the dynamic symbols, in the order of the symbols.
pub type VersionIndexTable<'data, E> = ParsingTable<'data, E, VersionIndex>;

impl ParseAt for VersionIndex {
    ghost use Rattle.elf_parts.specs.gnu_symver.Records.{version_index_reads};

    const SHAPE: (usize, usize, bool) = (2, 2, true);

    ghost SHAPE = { (2, 2, true) };

    ghost reads = { version_index_reads };

    ghost shape_law = { refl };

    #[tactic(auto, unfolding(elf_records::specs::Record::numbers_at, elf_records::specs::Record::numbers_end))]
    #[inline(always)]
    fn parse_at<E: EndianParse>(
        endian: E,
        _class: Class,
        offset: &mut usize,
        data: &[u8],
    ) -> Result<Self, ParseError> {
        Ok(VersionIndex(endian.parse_u16_at(offset, data)?))
    }
}

impl VersionIndex {
    /// Returns the index: the lower 15 bits.
    pub fn index(&self) -> u16
        ensures { result ≡ version_index self.now }
    {
        self.0 & abi::VER_NDX_VERSION
    }

    /// Returns whether the index is 0 (`VER_NDX_LOCAL`): the symbol is local.
    pub fn is_local(&self) -> bool
        ensures { result ≡ (version_index self.now == ver_ndx_local) }
    {
        self.index() == abi::VER_NDX_LOCAL
    }

    /// Returns whether the index is 1 (`VER_NDX_GLOBAL`): the symbol is global and has no version of its own.
    pub fn is_global(&self) -> bool
        ensures { result ≡ (version_index self.now == ver_ndx_global) }
    {
        self.index() == abi::VER_NDX_GLOBAL
    }

    /// Returns whether bit 15 is set: the version is hidden.
    pub fn is_hidden(&self) -> bool
        ensures { result ≡ version_is_hidden self.now }
    {
        self.0 & abi::VER_NDX_HIDDEN != 0
    }
}
