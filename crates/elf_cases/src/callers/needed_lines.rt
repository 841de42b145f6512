//! The results of `needed`, as lines.
use elf::endian::AnyEndian;
use elf::{ElfStream, FileSource, ParseError, StreamSource};
use elf_linking::needed::{Name, Names, Role, read_dynamic_names};
use std::alloc::Global;
use std::fs::File;
use std::io;
use std::io::Write;

pub(super) type Stream<S> = ElfStream<AnyEndian, S, Global>;

/// Prints the lines of the files with these names. Of each file only the needed ranges are read.
pub(super) fn print_needed_of_files<W: Write>(
    rt: &HostRuntime,
    files: &[String],
    out: &mut W,
) -> io::Result<()> {
    for file in files {
        let source = FileSource::new(File::open(rt, file.as_str())?);
        print_needed(rt.alloc(), out, Stream::open_stream(rt.alloc(), source))?;
    }
    Ok(())
}

/// Prints the lines of a file.
pub(super) fn print_needed<S: StreamSource, W: Write>(
    alloc: Global,
    out: &mut W,
    opened: Result<Stream<S>, ParseError>,
) -> io::Result<()> {
    let mut stream = match opened {
        Ok(stream) => stream,
        Err(error) => return writeln!(out, "refused: {error}"),
    };
    match read_dynamic_names(alloc, &mut stream) {
        Ok(Some(names)) if !is_empty(&names) => print_all(out, &names),
        Ok(_) => writeln!(out, "none"),
        Err(error) => writeln!(out, "refused: {error}"),
    }
}

fn is_empty(names: &Names) -> bool {
    names.soname.is_none()
        && names.libraries.is_empty()
        && names.runpath.is_none()
        && names.rpath.is_none()
}

fn print_all<W: Write>(out: &mut W, names: &Names) -> io::Result<()> {
    print_one(out, "soname ", names, names.soname.as_ref())?;
    for library in &names.libraries {
        let word = match library.role {
            Role::Needed => "needed ",
            Role::Auxiliary => "auxiliary ",
            Role::Filter => "filter ",
        };
        print_one(out, word, names, Some(&library.name))?;
    }
    print_one(out, "runpath ", names, names.runpath.as_ref())?;
    print_one(out, "rpath ", names, names.rpath.as_ref())
}

fn print_one<W: Write>(
    out: &mut W,
    word: &str,
    names: &Names,
    name: Option<&Name>,
) -> io::Result<()> {
    let Some(name) = name else {
        return Ok(());
    };
    out.write_all(word.as_bytes())?;
    out.write_all(names.bytes(name))?;
    writeln!(out)
}
