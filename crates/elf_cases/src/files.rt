//! File headers, and files that are opened.
use crate::methods::{Given, show_method, show_table};
use crate::row_words::{Words, field_of};
use crate::shown::{Shown, show};
use elf::ElfBytes;
use elf::endian::{AnyEndian, BigEndian, EndianParse, LittleEndian};
use elf::file::{Class, FileHeader, parse_ident};
use std::fmt::Debug;

/// `ident ORDER BYTES`: the identification.
pub(crate) fn show_ident(rt: &HostRuntime, words: &mut Words<'_>) -> Shown {
    let order = words.word();
    let data = words.bytes(rt);
    let data = data.as_slice();
    match order {
        "LittleEndian" => show(rt, parse_ident::<LittleEndian>(data)),
        "BigEndian" => show(rt, parse_ident::<BigEndian>(data)),
        _ => show(rt, parse_ident::<AnyEndian>(data)),
    }
}

/// `tail ORDER CLASS BYTES`: the header of these bytes after an identification with osabi 7 and abiversion 9.
pub(crate) fn show_tail(rt: &HostRuntime, words: &mut Words<'_>) -> Shown {
    let order = words.word();
    let class = words.class();
    let data = words.bytes(rt);
    let data = data.as_slice();
    match order {
        "LittleEndian" => show_tail_by(rt, LittleEndian, class, data),
        "BigEndian" => show_tail_by(rt, BigEndian, class, data),
        "little" => show_tail_by(rt, AnyEndian::Little, class, data),
        _ => show_tail_by(rt, AnyEndian::Big, class, data),
    }
}

fn show_tail_by<E: EndianParse + Debug>(
    rt: &HostRuntime,
    order: E,
    class: Class,
    data: &[u8],
) -> Shown {
    show(rt, FileHeader::<E>::parse_tail((order, class, 7, 9), data))
}

/// `KIND ORDER FILE CHANGE.. : SET..`, where KIND is
/// `open`: how many sections and segments the opened file has, or why it is not opened;
/// `file`: its header and all of its sections and segments;
/// `names`: the names of its sections;
/// `cuts`: what opening answers of the first 0, 1, 2 and so on of its bytes, up to all of them;
/// any other: what a method of the opened file answers.
/// A SET, as `shstrndx=2`, changes a field of the header of the opened file, or, as `offset=52`, of the header that the
/// method is called with; `name=N` is the name that it is called with.
pub(crate) fn show_file(rt: &HostRuntime, kind: &str, words: &mut Words<'_>) -> Shown {
    let order = words.word();
    let data = words.file(rt);
    let data = data.as_slice();
    match order {
        "LittleEndian" => show_file_by::<LittleEndian>(rt, kind, data, words),
        "BigEndian" => show_file_by::<BigEndian>(rt, kind, data, words),
        _ => show_file_by::<AnyEndian>(rt, kind, data, words),
    }
}

fn show_file_by<E: EndianParse + Debug>(
    rt: &HostRuntime,
    kind: &str,
    data: &[u8],
    words: &mut Words<'_>,
) -> Shown {
    if kind == "cuts" {
        return show_cuts::<E>(rt, data);
    }
    let mut file = ElfBytes::<E>::minimal_parse(data)?;
    let given = given_by(&mut file.ehdr, words);
    match kind {
        "open" => show_counts(rt, &file),
        "names" => show_names(rt, &file),
        "file" => show_parts(rt, &file),
        _ => show_method(rt, kind, &file, given),
    }
}

fn show_cuts<E: EndianParse>(rt: &HostRuntime, data: &[u8]) -> Shown {
    for length in 0..=data.len() {
        print!(rt; "\n    {length} ")?;
        match ElfBytes::<E>::minimal_parse(&data[..length]) {
            Ok(file) => show_counts(rt, &file)?,
            Err(error) => print!(rt; "{error:?}")?,
        }
    }
    Ok(())
}

/// What a method is called with, after the fields of the file's header are set.
fn given_by<'a, E: EndianParse>(ehdr: &mut FileHeader<E>, words: &mut Words<'a>) -> Given<'a> {
    let mut given = Given::none();
    for set in words.rest() {
        let (field, value) = field_of(set);
        if !set_field(ehdr, field, value, words) {
            given.set(field, value, words);
        }
    }
    given
}

/// Sets a field of the header, if there is one of this name.
fn set_field<E: EndianParse>(
    ehdr: &mut FileHeader<E>,
    field: &str,
    value: &str,
    words: &mut Words<'_>,
) -> bool {
    match field {
        "class" => ehdr.class = words.class_of(value),
        "order" => match E::from_ei_data(words.number_of(value)) {
            Ok(endianness) => ehdr.endianness = endianness,
            Err(_) => words.refuse("no order"),
        },
        "shnum" => ehdr.e_shnum = words.number_of(value),
        "shstrndx" => ehdr.e_shstrndx = words.number_of(value),
        _ => return false,
    }
    true
}

fn show_counts<E: EndianParse>(rt: &HostRuntime, file: &ElfBytes<'_, E>) -> Shown {
    let sections = file.section_headers().map(|table| table.len());
    let segments = file.segments().map(|table| table.len());
    print!(rt; "sections {sections:?} segments {segments:?}")?;
    Ok(())
}

fn show_parts<E: EndianParse + Debug>(rt: &HostRuntime, file: &ElfBytes<'_, E>) -> Shown {
    print!(rt; "\n  {:?}\n  sections ", file.ehdr)?;
    show_table(rt, file.section_headers())?;
    print!(rt; "\n  segments ")?;
    show_table(rt, file.segments())
}

/// The names of the sections.
fn show_names<E: EndianParse>(rt: &HostRuntime, file: &ElfBytes<'_, E>) -> Shown {
    match file.section_headers_with_strtab()? {
        (Some(sections), Some(names)) => {
            print!(rt; "of {}", sections.len())?;
            for section in sections.iter() {
                print!(rt; "; ")?;
                show(rt, names.get(section.sh_name as usize))?;
            }
        }
        (sections, names) => {
            let (sections, names) = (sections.is_some(), names.is_some());
            print!(rt; "sections {sections} names {names}")?;
        }
    }
    Ok(())
}
