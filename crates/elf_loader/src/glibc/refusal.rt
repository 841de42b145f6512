//! What the dynamic linker says of a file.

use std::fmt;
use thiserror::Error;

/// Why the dynamic linker skips a file.
#[derive(Debug, Clone, Copy, PartialEq, Eq, Error)]
pub enum SkipReason {
    /// It is not of the class of 64 bits, as the program is. If no other file is found for the name, the linker says
    /// so, and the program does not start.
    NotElf64,
    /// It is not of the class of 32 bits, as the program is.
    NotElf32,
    /// It is of another machine. If no other file is found for the name, there is no such file for the linker.
    OtherMachine,
}

impl fmt::Display for SkipReason {
    ghost use Rattle.elf_loader.specs.GlibcTexts.{skip_text};

    ghost output = { skip_text };

    fn fmt<W: fmt::Write>(&self, f: &mut fmt::Formatter<W>) -> fmt::Result {
        match self {
            SkipReason::NotElf64 => f.write_str("wrong ELF class: ELFCLASS32"),
            SkipReason::NotElf32 => f.write_str("wrong ELF class: ELFCLASS64"),
            SkipReason::OtherMachine => f.write_str("ELF file of another machine"),
        }
    }
}

/// Why the dynamic linker ends with a file, so that the program does not start.
#[derive(Debug, Clone, Copy, PartialEq, Eq, Error)]
pub enum Refusal {
    /// It has fewer bytes than a file header.
    FileTooShort,
    /// It does not begin as an ELF file.
    InvalidHeader,
    /// Its byte order is not the little one, as the program's.
    NotLittleEndian,
    /// Its byte order is not the big one, as the program's.
    NotBigEndian,
    /// The version of its identification is not 1.
    IdentVersion,
    /// Its ABI is neither that of System V nor that of GNU.
    OsAbi,
    /// The version of its ABI is too new.
    AbiVersion,
    /// A byte of the padding of its identification is not 0.
    Padding,
    /// Its version is not 1.
    Version,
    /// It is neither a shared object nor an executable file.
    Type,
    /// Its program headers have another size.
    HeaderSize,
    /// Its program headers do not lie in the file.
    HeadersOutside,
    /// The address and the offset of a segment `PT_LOAD` are at different places of a page.
    Misaligned,
    /// It has no segment `PT_LOAD`.
    NoLoad,
    /// It is an executable file at a fixed address.
    Executable,
    /// It has no dynamic section, or an empty one, as a file of debug data.
    NoDynamic,
    /// There is no room for its segments, or they are out of order.
    NoRoom,
    /// Its last segment `PT_LOAD` begins before the pages of the first one end.
    Overlapping,
    /// No segment `PT_LOAD` has its dynamic section in the file: the dynamic linker reads where nothing is.
    DynamicOutside,
    /// The relocations of its procedure linkage table are of a kind that the machine has not.
    PltKind,
    /// No entry gives the size of its relocations with addends: the dynamic linker reads where nothing is.
    NoRelaSize,
    /// The relocations with addends have another size.
    RelaSize,
    /// No entry gives the size of its relocations without addends: the dynamic linker reads where nothing is.
    NoRelSize,
    /// The relocations without addends have another size.
    RelSize,
    /// No entry gives the size of its packed relocations: the dynamic linker reads where nothing is.
    NoRelrSize,
    /// The packed relocations have another size.
    RelrSize,
    /// It is a program that can be loaded at any address.
    PositionIndependent,
    /// No segment `PT_LOAD` has its hash table in the file: the dynamic linker reads where nothing is.
    HashOutside,
    /// The number of the filter's words in its hash table is not a power of two.
    HashWords,
}

impl fmt::Display for Refusal {
    ghost use Rattle.elf_loader.specs.GlibcTexts.{refusal_text};

    ghost output = { refusal_text };

    fn fmt<W: fmt::Write>(&self, f: &mut fmt::Formatter<W>) -> fmt::Result {
        match self {
            Refusal::FileTooShort => f.write_str("file too short"),
            Refusal::InvalidHeader => f.write_str("invalid ELF header"),
            Refusal::NotLittleEndian => f.write_str("ELF file data encoding not little-endian"),
            Refusal::NotBigEndian => f.write_str("ELF file data encoding not big-endian"),
            Refusal::IdentVersion => f.write_str(
                "ELF file version ident does not match current one",
            ),
            Refusal::OsAbi => f.write_str("ELF file OS ABI invalid"),
            Refusal::AbiVersion => f.write_str("ELF file ABI version invalid"),
            Refusal::Padding => f.write_str("nonzero padding in e_ident"),
            Refusal::Version => f.write_str("ELF file version does not match current one"),
            Refusal::Type => f.write_str("only ET_DYN and ET_EXEC can be loaded"),
            Refusal::HeaderSize => f.write_str("ELF file's phentsize not the expected size"),
            Refusal::HeadersOutside => f.write_str("cannot read file data"),
            Refusal::Misaligned | Refusal::Overlapping => f.write_str(
                "ELF load command address/offset not page-aligned",
            ),
            Refusal::NoLoad => f.write_str("object file has no loadable segments"),
            Refusal::Executable => f.write_str("cannot dynamically load executable"),
            Refusal::NoDynamic => f.write_str("object file has no dynamic section"),
            Refusal::NoRoom => f.write_str("failed to map segment from shared object"),
            Refusal::PltKind => f.write_str(
                "elf_get_dynamic_info: Assertion `info[DT_PLTREL]->d_un.d_val == DT_RELA' failed!",
            ),
            Refusal::RelaSize => f.write_str(
                "elf_get_dynamic_info: Assertion `info[DT_RELAENT]->d_un.d_val == sizeof (ElfW(Rela))' failed!",
            ),
            Refusal::RelSize => f.write_str(
                "elf_get_dynamic_info: Assertion `info[DT_RELENT]->d_un.d_val == sizeof (ElfW(Rel))' failed!",
            ),
            Refusal::RelrSize => f.write_str(
                "elf_get_dynamic_info: Assertion `info[DT_RELRENT]->d_un.d_val == sizeof (ElfW(Relr))' failed!",
            ),
            Refusal::HashWords => f.write_str(
                "_dl_setup_hash: Assertion `(bitmask_nwords & (bitmask_nwords - 1)) == 0' failed!",
            ),
            Refusal::PositionIndependent => f.write_str(
                "cannot dynamically load position-independent executable",
            ),
            Refusal::DynamicOutside => f.write_str(
                "Segmentation fault: no segment has the dynamic section",
            ),
            Refusal::NoRelaSize => f.write_str("Segmentation fault: no entry DT_RELAENT"),
            Refusal::NoRelSize => f.write_str("Segmentation fault: no entry DT_RELENT"),
            Refusal::NoRelrSize => f.write_str("Segmentation fault: no entry DT_RELRENT"),
            Refusal::HashOutside => f.write_str(
                "Segmentation fault: no segment has the hash table",
            ),
        }
    }
}
