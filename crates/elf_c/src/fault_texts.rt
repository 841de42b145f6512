//! The texts of faults.
ghost use Rattle.std.specs.Prelude.{◌≡◌, IsTrue, length};
ghost use Rattle.elf_names.specs.Table.{rows_of};
ghost use Rattle.elf_c.specs.FaultTexts.{fault_templates, fault_text};
ghost use Rattle.elf_c.specs.Texts.{over};
ghost use Rattle.elf_c.specs.inner.Writing.{are_short};

use crate::faults::NugwierFault;
use crate::texts::{Numbers, write_text};
use elf_names::table::Names;

// By the numbers of `kinds`.
const TEMPLATES: Names<u32> = &[
    // the file
    (1, "no names of sections"),
    (2, "more than one section of type %"),
    // a section
    (101, "section #: no name"),
    (102, "section #: no bytes at its range"),
    (103, "section #: compressed"),
    (104, "section #: the last string does not end"),
    (105, "section #: no note at %"),
    // symbols
    (
        201,
        "section #: no linked section, or not the entry size of symbols",
    ),
    (202, "section #: linked to a section that holds no strings"),
    (203, "section #: not a whole number of symbols"),
    (204, "section #: no symbols, or no strings, at their ranges"),
    (205, "section #: symbol $: no name at ^"),
    (206, "section #: symbol $: no section &"),
    // relocations
    (301, "section #: not the entry size of relocations"),
    (302, "section #: linked to a section that holds no symbols"),
    (303, "section #: not a whole number of relocations"),
    (304, "section #: relocation $: no symbol &"),
    // a hash section
    (401, "section #: linked to a section that holds no symbols"),
    (402, "section #: no hash table, or no symbols for it"),
    (
        403,
        "section #: the table is not sound: Endless { bucket: $ }",
    ),
    (
        404,
        "section #: the table is not sound: PastChains { bucket: $, index: & }",
    ),
    (
        405,
        "section #: the table is not sound: Unreadable { index: $ }",
    ),
    (
        406,
        "section #: the table is not sound: WrongBucket { bucket: $, index: & }",
    ),
    (407, "section #: the table is not sound: ShiftTooLarge"),
    (
        408,
        "section #: the table is not sound: WrongHash { index: $ }",
    ),
    (
        409,
        "section #: the table is not sound: NoBloomBit { index: $ }",
    ),
    (
        410,
        "section #: the table is not sound: NotInRun { index: $ }",
    ),
    // dynamic entries
    (501, "section #: not the entry size of dynamic entries"),
    (502, "section #: linked to a section that holds no strings"),
    (503, "section #: no strings at their range"),
    (504, "section #: not a whole number of dynamic entries"),
    (505, "section #: no entry DT_NULL"),
    (506, "section #: dynamic entry $: no string at its offset"),
    // the versions
    (601, "versions: no needs, or no strings for them"),
    (
        602,
        "versions: more versions of needs than the section has bytes for",
    ),
    (603, "versions: needs: only $ of them"),
    (604, "versions: needs: more of them than declared"),
    (
        605,
        "versions: needs: number $: a name, or an auxiliary record, cannot be read",
    ),
    (606, "versions: no definitions, or no strings for them"),
    (
        607,
        "versions: more names of definitions than the section has bytes for",
    ),
    (608, "versions: definitions: only $ of them"),
    (609, "versions: definitions: more of them than declared"),
    (
        610,
        "versions: definitions: number $: a name, or an auxiliary record, cannot be read",
    ),
    (611, "versions: not a whole number of version indexes"),
    (612, "versions: no version indexes"),
    (613, "versions: no symbols for dynamic linking"),
    (614, "versions: not as many version indexes as symbols"),
    (615, "versions: symbol $: no version with its index"),
    (
        616,
        "versions: symbol $: a definition and a need with its index",
    ),
    // two segments
    (701, "segment # (PT_INTERP): segment $ has this type too"),
    (702, "segment # (PT_DYNAMIC): segment $ has this type too"),
    (703, "segment # (PT_PHDR): segment $ has this type too"),
    (704, "segment # (PT_TLS): segment $ has this type too"),
    (705, "segment # (PT_PHDR): comes after segment $ (PT_LOAD)"),
    (
        706,
        "segment # (PT_LOAD): begins before the end of segment $ (PT_LOAD)",
    ),
    // a segment
    (801, "segment # (@): does not lie in the file"),
    (
        802,
        "segment # (@): has more bytes in the file than in memory",
    ),
    (803, "segment # (@): ends past the last address"),
    (804, "segment # (@): does not end in a 0 byte"),
    (805, "segment # (@): has no note at offset ^"),
    (806, "segment # (@): is not a whole number of entries"),
    (807, "segment # (@): has no entry DT_NULL"),
    (
        808,
        "segment # (@): has other bytes than the section SHT_DYNAMIC",
    ),
];

// The templates of the faults by their kinds.
#[tactic(auto, unfolding(crate::specs::FaultTexts::fault_templates))]
fn templates() -> Names<u32>
    ensures rows { rows_of result.now ≡ fault_templates }
    ensures short { IsTrue (are_short (rows_of result.now)) }
{
    TEMPLATES
}

/// Writes the text of a fault over the front of `text`, as far as there is room, and returns the length of the whole
/// text. `FileFault` prints the same by `{}`. No fault has no text, and neither has a kind that is not one of `kinds`.
#[unsafe(no_mangle)]
pub extern "C" fn nugwier_fault_text(fault: &NugwierFault, text: &mut [u8]) -> usize
    ensures length { result ≡ length (fault_text fault.now) }
    ensures text { text.new ≡ over (fault_text fault.now) text.old }
{
    let numbers = Numbers {
        index: fault.index,
        first: fault.first,
        second: fault.second,
    };
    write_text(text, templates(), fault.kind, &numbers)
}
