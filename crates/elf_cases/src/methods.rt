//! The answers of an opened file.
use crate::common::show_common;
use crate::notes::show_all;
use crate::records::show_items;
use crate::row_words::Words;
use crate::shown::{Shown, show, show_lines};
use elf::ElfBytes;
use elf::endian::EndianParse;
use elf::parse::{ParseAt, ParsingTable};
use elf::section::SectionHeader;
use elf::segment::ProgramHeader;
use elf::string_table::StringTable;
use elf::symbol::SymbolTable;
use std::fmt::Debug;

/// The arguments of a call: a name, and the fields of a header that the caller filled in.
#[derive(Clone, Copy)]
pub(crate) struct Given<'a> {
    name: &'a str,
    shdr: SectionHeader,
    phdr: ProgramHeader,
}

impl<'a> Given<'a> {
    /// The empty name, and headers whose fields are all 0.
    pub(crate) fn none() -> Given<'a> {
        Given {
            name: "",
            shdr: SectionHeader {
                sh_name: 0,
                sh_type: 0,
                sh_flags: 0,
                sh_addr: 0,
                sh_offset: 0,
                sh_size: 0,
                sh_link: 0,
                sh_info: 0,
                sh_addralign: 0,
                sh_entsize: 0,
            },
            phdr: ProgramHeader {
                p_type: 0,
                p_offset: 0,
                p_vaddr: 0,
                p_paddr: 0,
                p_filesz: 0,
                p_memsz: 0,
                p_flags: 0,
                p_align: 0,
            },
        }
    }

    /// Puts a value in the place of a field, of either header.
    pub(crate) fn set(&mut self, field: &str, value: &'a str, words: &mut Words<'_>) {
        match field {
            "name" => self.name = value,
            "type" => {
                self.shdr.sh_type = words.number_of(value);
                self.phdr.p_type = self.shdr.sh_type;
            }
            "flags" => self.shdr.sh_flags = words.number_of(value),
            "offset" => {
                self.shdr.sh_offset = words.number_of(value);
                self.phdr.p_offset = self.shdr.sh_offset;
            }
            "size" => {
                self.shdr.sh_size = words.number_of(value);
                self.phdr.p_filesz = self.shdr.sh_size;
            }
            "align" => {
                self.shdr.sh_addralign = words.number_of(value);
                self.phdr.p_align = self.shdr.sh_addralign;
            }
            _ => words.refuse("no such field"),
        }
    }
}

/// What a method of the file answers.
pub(crate) fn show_method<E: EndianParse>(
    rt: &HostRuntime,
    kind: &str,
    file: &ElfBytes<'_, E>,
    given: Given<'_>,
) -> Shown {
    let Given { name, shdr, phdr } = given;
    match kind {
        "by_name" => show(rt, file.section_header_by_name(name)),
        "symbols" => show_symbols(rt, file.symbol_table()?),
        "dynsyms" => show_symbols(rt, file.dynamic_symbol_table()?),
        "dynamic" => show_table(rt, file.dynamic()?),
        "common" => show_common(rt, file, name.as_bytes()),
        "common_dynamic" => show_table(rt, file.find_common_data()?.dynamic),
        "segment" => show(rt, file.segment_data(&phdr)),
        "segment_notes" => show_all(rt, file.segment_data_as_notes(&phdr)?),
        "data" => show(rt, file.section_data(&shdr)),
        "strings" => show_strings(rt, file.section_data_as_strtab(&shdr)?),
        "rels" => show_lines(rt, file.section_data_as_rels(&shdr)?),
        "relas" => show_lines(rt, file.section_data_as_relas(&shdr)?),
        "section_notes" => show_all(rt, file.section_data_as_notes(&shdr)?),
        _ => Ok(print!(rt; "no such call")?),
    }
}

fn show_strings(rt: &HostRuntime, strings: StringTable<'_>) -> Shown {
    show(rt, strings.get_raw(0))?;
    print!(rt; "; ")?;
    show(rt, strings.get_raw(1))
}

fn show_symbols<E: EndianParse>(
    rt: &HostRuntime,
    found: Option<(SymbolTable<'_, E>, StringTable<'_>)>,
) -> Shown {
    let Some((symbols, strings)) = found else {
        return Ok(print!(rt; "none")?);
    };
    print!(rt; "{}", symbols.len())?;
    for symbol in symbols.iter() {
        print!(rt; "\n    {symbol:?} ")?;
        show(rt, strings.get_raw(symbol.st_name as usize))?;
    }
    Ok(())
}

pub(crate) fn show_table<E: EndianParse, P: ParseAt + Debug + Drop>(
    rt: &HostRuntime,
    found: Option<ParsingTable<'_, E, P>>,
) -> Shown {
    match found {
        Some(table) => show_items(rt, &table, table.len()),
        None => Ok(print!(rt; "none")?),
    }
}
