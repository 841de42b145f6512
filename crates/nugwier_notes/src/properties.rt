//! The properties of the code of a file, which are an array in the descriptor of a note.
#![tactic(auto, using(nugwier_report::proofs::Saying::saying_both))]

ghost use Rattle.std.specs.Prelude.{◌≡◌, OnOk};
ghost use Rattle.elf_names.specs.Flags.{flags_of};
ghost use Rattle.elf_names.specs.Table.{rows_of};
ghost use Rattle.elf_records.specs.Endian.{any_is_little};
ghost use Rattle.nugwier_layouts.specs.Members.{members_said};
ghost use Rattle.nugwier_notes.specs.Properties.{feature_type, is_feature_type, is_property_note};
ghost use Rattle.nugwier_notes.specs.Properties.{number_in, padded, properties_said, property_at, property_flags};
ghost use Rattle.nugwier_notes.specs.Properties.{property_members, property_number, property_said, property_types};
ghost use Rattle.nugwier_report.specs.Said.{saying};

use crate::features::{feature_flags, is_aarch64, is_x86};
use elf_abi::abi;
use elf_names::flags::Flags;
use elf_names::table::{Names, name_in};
use elf_parts::endian::{AnyEndian, EndianParse};
use elf_parts::file::Class;
use elf_records::slices::rest_of;
use nugwier_layouts::json::{Member, Value, number_value};
use nugwier_layouts::layouts;
use nugwier_report::problem::{Part, Stop, part_member};
use nugwier_report::tell::Tell;

/// A file, as the descriptors of notes and build attributes depend on it: its byte order, its class, and its machine
/// (`e_machine`).
#[derive(Clone, Copy)]
pub struct NoteFile {
    pub is_little: bool,
    pub class: Class,
    pub machine: u16,
}

impl NoteFile {
    /// Returns the byte order.
    pub fn order(self) -> AnyEndian
        ensures { any_is_little result ≡ self.is_little }
    {
        if self.is_little {
            AnyEndian::Little
        } else {
            AnyEndian::Big
        }
    }
}

/// Whether a note has properties.
pub fn is_property_note(n_type: u64, name: &[u8]) -> bool
    ensures { result ≡ is_property_note n_type name.now }
{
    n_type == abi::NT_GNU_PROPERTY_TYPE_0 && name == b"GNU\0".as_slice()
}

// ---- a property

/// Returns the type of the first property, and the size of its data.
pub fn property_at<E: EndianParse>(order: E, bytes: &[u8]) -> Option<(u32, u32)>
    ensures { result ≡ property_at (E.little order) bytes.now }
{
    let kind = number_in(order, bytes, 0)?;
    let size = number_in(order, bytes, 4)?;
    Some((kind, size))
}

/// Returns the number of four bytes.
pub fn number_in<E: EndianParse>(order: E, bytes: &[u8], offset: usize) -> Option<u32>
    ensures { result ≡ number_in (E.little order) bytes.now offset }
{
    let mut offset = offset;
    order.parse_u32_at(&mut offset, bytes).ok()
}

/// Returns the size of the data of a property with what fills them up.
pub fn padded(class: Class, size: u32) -> usize
    ensures { result ≡ padded class size }
{
    let size = size as usize;
    match class {
        Class::ELF32 => (size + 3) / 4 * 4,
        Class::ELF64 => (size + 7) / 8 * 8,
    }
}

fn property_number(order: AnyEndian, size: u32, bytes: &[u8]) -> Option<u64>
    ensures { result ≡ property_number (any_is_little order) size bytes.now }
{
    match size {
        4 => Some(number_in(order, bytes, 8)? as u64),
        8 => {
            let mut offset = 8;
            order.parse_u64_at(&mut offset, bytes).ok()
        }
        _ => None,
    }
}

// ---- names

/// Types of properties (Linux Extensions to gABI, section "Program Property").
pub const GNU: Names<u32> = &[
    (1, "GNU_PROPERTY_STACK_SIZE"),
    (2, "GNU_PROPERTY_NO_COPY_ON_PROTECTED"),
    (3, "GNU_PROPERTY_MEMORY_SEAL"),
    (0xb000_8000, "GNU_PROPERTY_1_NEEDED"),
];

/// Those of x86 (System V ABI, AMD64 and Intel386 supplements, section "Program Property").
pub const X86: Names<u32> = &[
    (0xc000_0000, "GNU_PROPERTY_X86_COMPAT_ISA_1_USED"),
    (0xc000_0001, "GNU_PROPERTY_X86_COMPAT_ISA_1_NEEDED"),
    (0xc000_0002, "GNU_PROPERTY_X86_FEATURE_1_AND"),
    (0xc000_8000, "GNU_PROPERTY_X86_COMPAT_2_ISA_1_NEEDED"),
    (0xc000_8001, "GNU_PROPERTY_X86_FEATURE_2_NEEDED"),
    (0xc000_8002, "GNU_PROPERTY_X86_ISA_1_NEEDED"),
    (0xc001_0000, "GNU_PROPERTY_X86_COMPAT_2_ISA_1_USED"),
    (0xc001_0001, "GNU_PROPERTY_X86_FEATURE_2_USED"),
    (0xc001_0002, "GNU_PROPERTY_X86_ISA_1_USED"),
];

/// Those of AArch64 (ELF for the Arm 64-bit Architecture, section "Program Property").
pub const AARCH64: Names<u32> = &[
    (0xc000_0000, "GNU_PROPERTY_AARCH64_FEATURE_1_AND"),
    (0xc000_0001, "GNU_PROPERTY_AARCH64_FEATURE_PAUTH"),
];

/// Levels of x86 (System V ABI, AMD64 supplement, section "Program Property": `GNU_PROPERTY_X86_ISA_1_NEEDED`).
pub const X86_LEVELS: Flags = &[
    (0x1, 0x1, "x86-64-baseline"),
    (0x2, 0x2, "x86-64-v2"),
    (0x4, 0x4, "x86-64-v3"),
    (0x8, 0x8, "x86-64-v4"),
];

/// Parts of the processor that code uses (System V ABI, AMD64 supplement, section "Program Property":
/// `GNU_PROPERTY_X86_FEATURE_2_USED`).
pub const X86_USED: Flags = &[
    (0x1, 0x1, "X86"),
    (0x2, 0x2, "X87"),
    (0x4, 0x4, "MMX"),
    (0x8, 0x8, "XMM"),
    (0x10, 0x10, "YMM"),
    (0x20, 0x20, "ZMM"),
    (0x40, 0x40, "FXSR"),
    (0x80, 0x80, "XSAVE"),
    (0x100, 0x100, "XSAVEOPT"),
    (0x200, 0x200, "XSAVEC"),
    (0x400, 0x400, "TMM"),
    (0x800, 0x800, "MASK"),
];

/// Returns the type of the property that has the features of all code, by the machine.
pub fn feature_type(machine: u16) -> Option<u32>
    ensures { result ≡ feature_type machine }
{
    if is_x86(machine) {
        Some(0xc000_0002)
    } else if is_aarch64(machine) {
        Some(abi::GNU_PROPERTY_AARCH64_FEATURE_1_AND)
    } else {
        None
    }
}

fn is_feature_type(machine: u16, kind: u32) -> bool
    ensures { result ≡ is_feature_type machine kind }
{
    match feature_type(machine) {
        Some(features) => features == kind,
        None => false,
    }
}

// The flags in the number of a property.
#[tactic(auto, unfolding(crate::specs::Properties::property_flags))]
fn property_flags(machine: u16, kind: u32) -> Flags
    ensures { flags_of result.now ≡ property_flags machine kind }
{
    if is_feature_type(machine, kind) {
        feature_flags(machine)
    } else if is_x86(machine) && (kind == 0xc000_8002 || kind == 0xc001_0002) {
        X86_LEVELS
    } else if is_x86(machine) && (kind == 0xc000_8001 || kind == 0xc001_0001) {
        X86_USED
    } else {
        &[]
    }
}

// The types of properties with their names.
#[tactic(auto, unfolding(crate::specs::Properties::property_types))]
fn property_types(machine: u16, kind: u32) -> Names<u32>
    ensures { rows_of result.now ≡ property_types machine kind }
{
    if kind < 0xc000_0000 {
        GNU
    } else if is_x86(machine) {
        X86
    } else if is_aarch64(machine) {
        AARCH64
    } else {
        &[]
    }
}

// ---- what is said

/// Says the properties of a note, by its number.
pub(crate) fn tell_properties<T: Tell>(
    file: NoteFile,
    part: Part,
    note: u64,
    bytes: &[u8],
    tell: &mut T,
) -> Result<(), Stop>
    ensures { OnOk result (tell.new ≡ saying T.one tell.old (properties_said file part note bytes.now bytes.now)) }
{
    let mut rest = bytes;
    let mut left = bytes;
    while let Some((_first, others)) = left.split_first() {
        let Some(property) = property_at(file.order(), rest) else {
            return Ok(());
        };
        let number = property_number(file.order(), property.1, rest);
        tell_property(file, part, note, property, number, tell)?;
        rest = rest_of(8 + padded(file.class, property.1), rest);
        left = others;
    }
    Ok(())
}

fn tell_property<T: Tell>(
    file: NoteFile,
    part: Part,
    note: u64,
    property: (u32, u32),
    number: Option<u64>,
    tell: &mut T,
) -> Result<(), Stop>
    ensures { OnOk result (tell.new ≡ saying T.one tell.old (property_said file part note property number)) }
{
    let members = property_members(file, part, note, property, number);
    match number {
        Some(_) => tell.state(&layouts::NUMBER_PROPERTY, &members),
        None => tell.state(&layouts::PROPERTY, &members),
    }
}

fn property_members(
    file: NoteFile,
    part: Part,
    note: u64,
    property: (u32, u32),
    number: Option<u64>,
) -> [Member<'static>; 7]
    ensures { members_said result ≡ property_members file part note property number }
{
    let (kind, size) = property;
    let flags = property_flags(file.machine, kind);
    [
        part_member(part),
        ("note", Value::Number(note)),
        ("pr_type", Value::Number(kind as u64)),
        (
            "pr_type_name",
            Value::Word(name_in(property_types(file.machine, kind), kind)),
        ),
        ("pr_datasz", Value::Number(size as u64)),
        ("number", number_value(number)),
        ("number_names", Value::Flags(flags, number.unwrap_or(0))),
    ]
}
