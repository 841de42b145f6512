//! The results of the callers, as lines.
use super::binding_lines::print_bindings;
use super::needed_lines::{Stream, print_needed};
use elf::endian::AnyEndian;
use elf::gnu_symver::{IndexedVersions, SymbolVersionTable};
use elf::string_table::StringTable;
use elf::symbol::{Symbol, SymbolTable};
use elf::{ElfBytes, MemSource};
use elf_linking::indexed;
use elf_linking::resolve::resolve;
use elf_linking::resolver::{definition, tables};
use elf_tools::build_id::build_id;
use elf_tools::functions::{function_version, functions};
use elf_tools::hash_lint::lint;
use elf_tools::load_plan::{Mapping, load_plan};
use std::alloc::Global;
use std::fmt::Display;
use std::io;
use std::io::Write;

type File<'data> = ElfBytes<'data, AnyEndian>;

/// Prints the results of a caller, for each file, or for `resolver` and `bindings` over all files.
pub(super) fn print_answers<W: Write>(
    alloc: Global,
    out: &mut W,
    caller: &str,
    files: &[Vec<u8>],
) -> io::Result<()> {
    if let Some(name) = caller.strip_prefix("resolver=") {
        return print_resolved(alloc, out, false, name.as_bytes(), files);
    }
    if let Some(name) = caller.strip_prefix("resolve=") {
        return print_resolved(alloc, out, true, name.as_bytes(), files);
    }
    if caller == "bindings" {
        let mut libraries = Vec::new(alloc);
        for data in files {
            libraries.push(ElfBytes::minimal_parse(data.as_slice()))?;
        }
        return print_bindings(alloc, out, libraries.as_slice());
    }
    for data in files {
        print_answer(alloc, out, caller, data.as_slice())?;
    }
    Ok(())
}

fn print_answer<W: Write>(alloc: Global, out: &mut W, caller: &str, data: &[u8]) -> io::Result<()> {
    if caller == "needed" {
        return print_needed(alloc, out, Stream::open_stream(alloc, MemSource::new(data)));
    }
    let file = match ElfBytes::minimal_parse(data) {
        Ok(file) => file,
        Err(error) => return print_refusal(out, error),
    };
    match caller {
        "build_id" => print_build_id(out, &file),
        "functions" => print_functions(alloc, out, &file),
        "load_plan" => print_plan(alloc, out, &file),
        "hash_lint" => print_lint(out, &file),
        _ => Err(io::Error::other("no such caller")),
    }
}

fn print_refusal<W: Write, D: Display + Drop>(out: &mut W, error: D) -> io::Result<()> {
    writeln!(out, "refused: {error}")
}

fn print_build_id<W: Write>(out: &mut W, file: &File<'_>) -> io::Result<()> {
    match build_id(file) {
        Ok(Some(id)) => {
            for byte in id {
                write!(out, "{byte:02x}")?;
            }
            writeln!(out)
        }
        Ok(None) => writeln!(out, "none"),
        Err(error) => print_refusal(out, error),
    }
}

fn print_functions<W: Write>(alloc: Global, out: &mut W, file: &File<'_>) -> io::Result<()> {
    match file.dynamic_symbol_table() {
        Ok(Some((symbols, strings))) => match file.symbol_version_table() {
            Ok(versions) => print_all(alloc, out, &symbols, &strings, versions.as_ref()),
            Err(error) => print_refusal(out, error),
        },
        Ok(None) => writeln!(out, "none"),
        Err(error) => print_refusal(out, error),
    }
}

/// Prints the functions among these symbols, each with its version.
fn print_all<W: Write>(
    alloc: Global,
    out: &mut W,
    symbols: &SymbolTable<'_, AnyEndian>,
    strings: &StringTable<'_>,
    versions: Option<&SymbolVersionTable<'_, AnyEndian>>,
) -> io::Result<()> {
    let versions = indexed(alloc, versions)?;
    for (index, symbol) in &functions(alloc, symbols)? {
        write!(out, "0x{:x} ", symbol.st_value)?;
        match strings.get_raw(symbol.st_name as usize) {
            Ok(name) => out.write_all(name)?,
            Err(error) => write!(out, "({error})")?,
        }
        print_version(out, *index, versions.as_ref())?;
    }
    Ok(())
}

fn print_version<W: Write>(
    out: &mut W,
    index: usize,
    versions: Option<&IndexedVersions<'_, '_, AnyEndian, Global>>,
) -> io::Result<()> {
    let Some(versions) = versions else {
        return writeln!(out);
    };
    match function_version(versions, index) {
        Ok(Some(version)) => {
            let name = version.name;
            let sign = if version.hidden { "@" } else { "@@" };
            writeln!(out, "{sign}{name}")
        }
        Ok(None) => writeln!(out),
        Err(error) => writeln!(out, " ({error})"),
    }
}

fn print_plan<W: Write>(alloc: Global, out: &mut W, file: &File<'_>) -> io::Result<()> {
    let plan = match load_plan(alloc, file) {
        Ok(plan) => plan,
        Err(error) => return print_refusal(out, error),
    };
    for mapping in &plan {
        let Mapping {
            address,
            memory_size,
            offset,
            file_size,
            flags,
        } = *mapping;
        writeln!(
            out,
            "offset=0x{offset:x} address=0x{address:x} filesize=0x{file_size:x} memsize=0x{memory_size:x} flags={flags}"
        )?;
    }
    Ok(())
}

fn print_lint<W: Write>(out: &mut W, file: &File<'_>) -> io::Result<()> {
    let Some(sections) = file.section_headers() else {
        return Ok(());
    };
    for (index, section) in sections.iter().enumerate() {
        match lint(file, &section) {
            Some(Ok(indexed)) => writeln!(out, "section {index}: sound, indexed={indexed}")?,
            Some(Err(fault)) => writeln!(out, "section {index}: {fault}")?,
            None => {}
        }
    }
    Ok(())
}

/// Prints the first symbol of a name in the files, or the first definition of it.
fn print_resolved<W: Write>(
    alloc: Global,
    out: &mut W,
    is_any_symbol: bool,
    name: &[u8],
    files: &[Vec<u8>],
) -> io::Result<()> {
    let mut libraries: Vec<File<'_>> = Vec::new(alloc);
    for data in files {
        match ElfBytes::minimal_parse(data.as_slice()) {
            Ok(file) => libraries.push(file)?,
            Err(error) => return print_refusal(out, error),
        }
    }
    match tables(alloc, libraries.as_slice()) {
        Ok(tables) if is_any_symbol => print_definition(out, resolve(tables.as_slice(), name)),
        Ok(tables) => print_definition(out, definition(tables.as_slice(), name)),
        Err(error) => print_refusal(out, error),
    }
}

fn print_definition<W: Write>(
    out: &mut W,
    found: Option<(usize, usize, Symbol)>,
) -> io::Result<()> {
    match found {
        Some((library, index, symbol)) => {
            let value = symbol.st_value;
            writeln!(out, "library {library}: symbol {index}, value 0x{value:x}")
        }
        None => writeln!(out, "none"),
    }
}
