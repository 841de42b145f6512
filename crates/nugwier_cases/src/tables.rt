//! Rows of the file `tables`: the names that `elf_names` and `elf::to_str` have for numbers. The text of these rows is
//! that of other programs (`tests/nugwier/beside-headers`), so that the name of a neighbour is noticed.
use crate::changes::digit_value;
use elf::to_str;
use elf_names::attributes::{attribute_tag_name, attribute_value_name, scope_name};
use elf_names::flags::{
    Flags, dynamic_flags, dynamic_flags_1, file_flags, section_flags, segment_flags, version_flags,
};
use elf_names::machines::machine_name;
use elf_names::notes::note_type_name;
use elf_names::relocations::relocation_type_name;
use elf_names::sections::section_type_name;
use elf_names::segments::segment_type_name;
use elf_names::tags::tag_name;
use std::io::Write;
use std::{fs, io};

/// Prints each row and what is known of it. `flags TABLE MACHINE`: the flags of a table, which are the bits that each
/// has to do with, their value and its name. `TABLE OWNER FIRST LAST`: the numbers from FIRST to LAST, in hexadecimal
/// digits, that have names in a table, with the names. An owner is a machine, an owner of notes, a vendor with a
/// number, or `-`.
pub(crate) fn show_tables<W: Write>(rt: &HostRuntime, out: &mut W) -> io::Result<()> {
    let rows = fs::read_to_string(rt, "tables")?;
    for row in rows.lines() {
        writeln!(out, "{row}:")?;
        let (table, words) = split_word(row);
        let (owner, numbers) = split_word(words);
        match table {
            "flags" => show_flags(flags_of(owner, machine_of(numbers)), out)?,
            _ => show_names(table, owner, numbers, out)?,
        }
    }
    Ok(())
}

// The first word, and those after it.
fn split_word(words: &str) -> (&str, &str) {
    words.split_once(' ').unwrap_or((words, ""))
}

fn machine_of(word: &str) -> u16 {
    word.parse().unwrap_or(0)
}

fn flags_of(table: &str, e_machine: u16) -> Flags {
    match table {
        "file" => file_flags(e_machine),
        "section" => section_flags(),
        "segment" => segment_flags(),
        "dynamic" => dynamic_flags(),
        "dynamic_1" => dynamic_flags_1(),
        _ => version_flags(),
    }
}

fn show_flags<W: Write>(flags: Flags, out: &mut W) -> io::Result<()> {
    for (bits, value, name) in flags {
        writeln!(out, "  {bits:#x} {value:#x} {name}")?;
    }
    Ok(())
}

fn show_names<W: Write>(table: &str, owner: &str, numbers: &str, out: &mut W) -> io::Result<()> {
    let (first, last) = split_word(numbers);
    for number in number_of(first)..=number_of(last) {
        if let Some(name) = name_of(table, owner, number) {
            writeln!(out, "  {number:#x} {name}")?;
        }
    }
    Ok(())
}

// The number of hexadecimal digits.
fn number_of(digits: &str) -> u64 {
    let mut number: u64 = 0;
    for digit in digits.bytes() {
        let value = u64::from(digit_value(digit).unwrap_or(0));
        number = number.saturating_mul(16).saturating_add(value);
    }
    number
}

fn name_of(table: &str, owner: &str, number: u64) -> Option<&'static str> {
    match table {
        "notes" => note_type_name(owner.as_bytes(), number),
        "scopes" => scope_name(number),
        "attributes" | "values" => name_of_attribute(table, owner, number),
        _ => match u32::try_from(number) {
            Ok(number) => name_by_machine(table, machine_of(owner), number),
            Err(_) => None,
        },
    }
}

// The owner of a tag is `VENDOR:MACHINE`, that of its value `VENDOR:TAG`.
fn name_of_attribute(table: &str, owner: &str, number: u64) -> Option<&'static str> {
    let (vendor, word) = owner.split_once(':').unwrap_or((owner, ""));
    match table {
        "attributes" => attribute_tag_name(vendor.as_bytes(), machine_of(word), number),
        _ => attribute_value_name(vendor.as_bytes(), word.parse().unwrap_or(0), number),
    }
}

fn name_by_machine(table: &str, e_machine: u16, number: u32) -> Option<&'static str> {
    match table {
        "relocations" => relocation_type_name(e_machine, number),
        "sections" => section_type_name(e_machine, number),
        "segments" => segment_type_name(e_machine, number),
        "tags" => tag_name(e_machine, i64::from(number)),
        _ => name_of_any(table, number),
    }
}

// The name of a number that means the same for every machine.
fn name_of_any(table: &str, number: u32) -> Option<&'static str> {
    let byte = u8::try_from(number).ok();
    let half = u16::try_from(number).ok();
    match table {
        "machines" => half.and_then(machine_name),
        "files" => half.and_then(to_str::e_type_to_str),
        "systems" => byte.and_then(to_str::e_osabi_to_str),
        "symbols" => byte.and_then(to_str::st_symtype_to_str),
        "bindings" => byte.and_then(to_str::st_bind_to_str),
        "visibilities" => byte.and_then(to_str::st_vis_to_str),
        _ => to_str::ch_type_to_str(number),
    }
}
