//! How the relocations of a file refer to its symbols.
ghost use Rattle.std.specs.Prelude.{◌≡◌};
ghost use Rattle.elf.specs.ObjectFile.{Partial};
ghost use Rattle.elf.specs.Parts.{loaded};
ghost use Rattle.elf_records.specs.Number.{ok_map};
ghost use Rattle.elf_records.specs.Table.{items_left};
ghost use Rattle.elf_dynamic.specs.dynamic_view.Relocations.{all_parts};
ghost use Rattle.elf_linking.specs.SymbolUses.{is_dynamic, section_uses, use_added, uses_after};
ghost use Rattle.elf_linking.specs.SymbolUses.{uses_at, uses_by, uses_fault, with_use};
ghost use Rattle.elf_linking.specs.declared.bindings.uses.UsesError.TheVariants.{Dynamic as IsDynamic};

use crate::{ReferenceKind, reference_kind};
use elf::endian::EndianParse;
use elf::parse::ParsingIterator;
use elf::reader::{Reader, section_data_as_relas, section_data_as_rels};
use elf::relocation::Relocation;
use elf::section::SectionHeader;
use elf::{ParseError, ReadError, abi};
use elf_dynamic::dynamic_view::DynamicError;
use std::fmt;
use thiserror::Error;

/// The kinds of references that relocations make to a symbol.
#[derive(Debug, Clone, Copy)]
pub struct SymbolUses {
    pub jump_slot: bool,
    pub address: bool,
    pub copied: bool,
}

/// No reference.
pub const NO_USES: SymbolUses = SymbolUses {
    jump_slot: false,
    address: false,
    copied: false,
};

/// Why the relocations of a file are not known.
#[derive(Debug, Drop, Error)]
pub enum UsesError {
    /// A section of relocations cannot be read.
    Read(ParseError),
    /// The sections of relocations are together larger than the file.
    TooLarge,
    /// The relocations are not available: of a file that declares no section headers through its segments, or since a
    /// range is not loaded (`DynamicError::Missing`).
    Dynamic(DynamicError),
}

impl fmt::Display for UsesError {
    ghost use Rattle.elf_linking.specs.Texts.{uses_text};

    ghost output = { uses_text };

    fn fmt<W: fmt::Write>(&self, f: &mut fmt::Formatter<W>) -> fmt::Result {
        match self {
            UsesError::Read(error) => write!(f, "{error}"),
            UsesError::TooLarge => {
                f.write_str("the sections of relocations are larger than the file")
            }
            UsesError::Dynamic(error) => write!(f, "{error}"),
        }
    }
}

impl From<DynamicError> for UsesError {
    ghost from_gives = { λ error fault. fault ≡ IsDynamic error };

    fn from(error: DynamicError) -> UsesError {
        UsesError::Dynamic(error)
    }
}

impl From<ReadError> for UsesError {
    ghost from_gives = { λ error fault. fault ≡ uses_fault Partial error };

    fn from(error: ReadError) -> UsesError {
        match error {
            ReadError::Parse(error) => UsesError::Read(error),
            ReadError::NotLoaded(range) => UsesError::Dynamic(DynamicError::Missing(range)),
        }
    }
}

// These uses with one of a kind.
fn with_use(kind: ReferenceKind, uses: SymbolUses) -> SymbolUses
    ensures { result ≡ with_use kind uses }
{
    match kind {
        ReferenceKind::JumpSlot => SymbolUses {
            jump_slot: true,
            ..uses
        },
        ReferenceKind::Address => SymbolUses {
            address: true,
            ..uses
        },
        ReferenceKind::Copied => SymbolUses {
            copied: true,
            ..uses
        },
    }
}

/// Returns the uses of a symbol by its index, or none if the index lies past the end.
pub fn uses_at(uses: &[SymbolUses], index: usize) -> SymbolUses
    ensures { result ≡ uses_at uses.now index }
{
    if index < uses.len() {
        uses[index]
    } else {
        NO_USES
    }
}

// Adds a use of a symbol. A symbol that there is not has none.
fn add_use(uses: &mut [SymbolUses], symbol: usize, kind: ReferenceKind)
    ensures { uses.new ≡ use_added uses.old symbol kind }
{
    if symbol < uses.len() {
        uses[symbol] = with_use(kind, uses[symbol]);
    }
}

// Adds the uses of relocations, without or with addends.
pub(crate) fn add_each<E: EndianParse, P: Relocation>(
    machine: u16,
    relocations: ParsingIterator<'_, E, P>,
    uses: &mut [SymbolUses],
)
    ensures { uses.new ≡ uses_after machine uses.old (all_parts P.fields (items_left P.reads relocations.entry)) }
{
    for relocation in relocations {
        let fields = relocation.fields();
        add_use(
            uses,
            fields.r_sym as usize,
            reference_kind(machine, fields.r_type),
        );
    }
}

// Adds the uses of the relocations of a section, if it has any.
fn add_section<E: EndianParse, R: Reader<E>>(
    machine: u16,
    file: &R,
    section: &SectionHeader,
    uses: &mut [SymbolUses],
) -> Result<(), ReadError>
    ensures { ok_map (λ _. uses.new) result
        ≡ section_uses machine (loaded (R.file file.now) (R.ranges file.now)) section.now uses.old }
{
    if section.sh_type == abi::SHT_REL {
        let rels = section_data_as_rels(file, section)?;
        add_each(machine, rels, uses);
    } else if section.sh_type == abi::SHT_RELA {
        let relas = section_data_as_relas(file, section)?;
        add_each(machine, relas, uses);
    }
    Ok(())
}

// Whether the section has relocations of dynamic symbols.
pub(crate) fn is_dynamic<E: EndianParse, R: Reader<E>>(file: &R, section: &SectionHeader) -> bool
    ensures { result ≡ is_dynamic (loaded (R.file file.now) (R.ranges file.now)) section.now }
{
    if section.sh_type != abi::SHT_REL && section.sh_type != abi::SHT_RELA {
        return false;
    }
    match file.section_at(section.sh_link as usize) {
        Ok(linked) => linked.sh_type == abi::SHT_DYNSYM,
        Err(_) => false,
    }
}

/// Adds the uses that the relocations of a file make of its dynamic symbols, in the order of their table:
/// those of each section of type `SHT_REL` or `SHT_RELA` that is linked to a section of type `SHT_DYNSYM`.
///
/// Errors, of the first such section with one, in order: `TooLarge` if its size and those of the ones before it are
/// together larger than the file; `Read` with that of `section_data_as_rels` or `section_data_as_relas`. So the time is
/// that of one walk over the sections and the bytes of the file.
pub fn add_uses<E: EndianParse, R: Reader<E>>(
    machine: u16,
    file: &R,
    uses: &mut [SymbolUses],
) -> Result<(), UsesError>
    ensures { ok_map (λ _. uses.new) result
        ≡ uses_by machine (loaded (R.file file.now) (R.ranges file.now)) uses.old }
{
    let mut left = file.size();
    for section in file.each_section() {
        if is_dynamic(file, &section) {
            if section.sh_size > left {
                return Err(UsesError::TooLarge);
            }
            left -= section.sh_size;
            add_section(machine, file, &section, uses)?;
        }
    }
    Ok(())
}
