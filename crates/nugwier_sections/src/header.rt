//! What is said of the file header.
#![tactic(auto, using(nugwier_report::proofs::Saying::saying_both, nugwier_report::proofs::Parts::said_parts))]

ghost use Rattle.std.specs.Prelude.{◌≡◌, OnOk};
ghost use Rattle.nugwier_sections.specs.Header.{class_name, class_number, header_members, header_said, order_name};
ghost use Rattle.nugwier_sections.specs.Header.{kind_name, order_number};
ghost use Rattle.std.specs.Option.{option_copied, option_map};
ghost use Rattle.nugwier_layouts.specs.Members.{members_said};
ghost use Rattle.nugwier_report.specs.Said.{saying};

use elf_abi::{abi, to_str};
use elf_names::flags::file_flags;
use elf_names::machines::machine_name;
use elf_parts::endian::EndianParse;
use elf_parts::file::{Class, FileHeader};
use nugwier_layouts::json::{Member, Value};
use nugwier_layouts::layouts;
use nugwier_report::problem::Stop;
use nugwier_report::tell::Tell;

/// What a file is, by its type and how it is linked.
#[derive(Clone, Copy)]
pub enum FileKind {
    /// A program at fixed addresses.
    Executable,
    /// A program at any address, which an interpreter starts.
    Pie,
    /// A program at any address, which starts itself.
    StaticPie,
    SharedObject,
    Relocatable,
    Core,
}

impl FileKind {
    fn name(self) -> &'static str
        ensures { result.now ≡ kind_name self }
    {
        match self {
            FileKind::Executable => "executable",
            FileKind::Pie => "pie",
            FileKind::StaticPie => "static pie",
            FileKind::SharedObject => "shared object",
            FileKind::Relocatable => "relocatable",
            FileKind::Core => "core",
        }
    }
}

/// Returns the name of what a file is, if it is known.
pub fn kind_name(kind: Option<FileKind>) -> Option<&'static str>
    ensures { option_copied result ≡ option_map kind_name kind }
{
    match kind {
        Some(kind) => Some(kind.name()),
        None => None,
    }
}

/// Says the fields of a file header (gABI, chapter "ELF Header"), and what the file is, if that is known.
pub fn tell_header<E: EndianParse, T: Tell>(
    header: &FileHeader<E>,
    kind: Option<FileKind>,
    tell: &mut T,
) -> Result<(), Stop>
    ensures { OnOk result (tell.new ≡ saying T.one tell.old (header_said E.little header.now kind)) }
{
    tell.state(&layouts::FILE_HEADER, &header_members(header, kind))
}

#[tactic(auto, unfolding(crate::specs::Header::header_members))]
fn header_members<E: EndianParse>(
    header: &FileHeader<E>,
    kind: Option<FileKind>,
) -> [Member<'static>; 24]
    ensures { members_said result ≡ header_members E.little header.now kind }
{
    let (class, class_name) = class_parts(header.class);
    let (order, order_name) = order_parts(header.endianness.is_little());
    [
        ("ei_class", Value::Number(class as u64)),
        ("ei_class_name", Value::Word(Some(class_name))),
        ("ei_data", Value::Number(order as u64)),
        ("ei_data_name", Value::Word(Some(order_name))),
        ("ei_osabi", Value::Number(header.osabi as u64)),
        (
            "ei_osabi_name",
            Value::Word(to_str::e_osabi_to_str(header.osabi)),
        ),
        ("ei_abiversion", Value::Number(header.abiversion as u64)),
        ("e_type", Value::Number(header.e_type as u64)),
        (
            "e_type_name",
            Value::Word(to_str::e_type_to_str(header.e_type)),
        ),
        ("e_machine", Value::Number(header.e_machine as u64)),
        (
            "e_machine_name",
            Value::Word(machine_name(header.e_machine)),
        ),
        ("e_version", Value::Number(header.version as u64)),
        ("e_entry", Value::Number(header.e_entry)),
        ("e_phoff", Value::Number(header.e_phoff)),
        ("e_shoff", Value::Number(header.e_shoff)),
        ("e_flags", Value::Number(header.e_flags as u64)),
        (
            "e_flags_names",
            Value::Flags(file_flags(header.e_machine), header.e_flags as u64),
        ),
        ("e_ehsize", Value::Number(header.e_ehsize as u64)),
        ("e_phentsize", Value::Number(header.e_phentsize as u64)),
        ("e_phnum", Value::Number(header.e_phnum as u64)),
        ("e_shentsize", Value::Number(header.e_shentsize as u64)),
        ("e_shnum", Value::Number(header.e_shnum as u64)),
        ("e_shstrndx", Value::Number(header.e_shstrndx as u64)),
        ("kind", Value::Word(kind_name(kind))),
    ]
}

fn class_parts(class: Class) -> (u8, &'static str)
    ensures number { result.0 ≡ class_number class }
    ensures name { result.1.now ≡ class_name class }
{
    match class {
        Class::ELF32 => (abi::ELFCLASS32, "ELFCLASS32"),
        Class::ELF64 => (abi::ELFCLASS64, "ELFCLASS64"),
    }
}

fn order_parts(is_little: bool) -> (u8, &'static str)
    ensures number { result.0 ≡ order_number is_little }
    ensures name { result.1.now ≡ order_name is_little }
{
    if is_little {
        (abi::ELFDATA2LSB, "ELFDATA2LSB")
    } else {
        (abi::ELFDATA2MSB, "ELFDATA2MSB")
    }
}
