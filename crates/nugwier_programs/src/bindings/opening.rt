//! The file of an object, with what look-ups use of it.
ghost use Rattle.std.specs.Prelude.{◌≡◌, Err, IfOk, IfSome, IsErr, []};
ghost use Rattle.elf_records.specs.Endian.{any_is_little, any_of_byte};
ghost use Rattle.elf_reading.specs.Opening.{FileView, headers_of, opened_file};
ghost use Rattle.elf_libraries.specs.Tree.{found_view};
ghost use Rattle.nugwier_programs.specs.Bindings.{IsPartOf, content_of};
ghost use Rattle.nugwier_programs.specs.inner.Opening.{IsLoadedAs, IsLoadedFrom, IsLinkedTo};
ghost use Rattle.nugwier_programs.specs.inner.Scope.{open_at};

use elf::endian::AnyEndian;
use elf::{Closed, ElfBytes, ElfStream, MemSource, ParseError, StreamSource};
use elf_libraries::files::Files;
use elf_libraries::opening::Opening;
use elf_libraries::tree::LoadedFile;
use elf_linking::links::load_links;
use std::alloc::{AllocError, Global};

/// What is loaded of a file, whose source is closed.
pub(crate) type Linked = ElfStream<AnyEndian, Closed, Global>;

// What look-ups use of the file of a stream.
fn load_open<S: StreamSource>(
    mut stream: ElfStream<AnyEndian, S, Global>,
) -> Result<Linked, ParseError>
    ensures { IfOk result (λ file. IfSome stream.content (λ bytes. (v : FileView AnyEndian) → v.bytes ≡ bytes
        → stream.headers ≡ headers_of v → IsPartOf v (open_at [] file))) }
{
    load_links(&mut stream)?;
    Ok(stream.close())
}

// What look-ups use of the file of a source.
fn load<S: StreamSource>(alloc: Global, source: S) -> Result<Linked, ParseError>
    ensures { IfOk result (λ file. IfSome (S.content source) (λ bytes. IsLinkedTo bytes file)) }
{
    let stream = ElfStream::<AnyEndian, S, Global>::open_stream(alloc, source)?;
    load_open(stream)
}

// The same of a file whose section headers cannot be read.
fn load_by_segments<S: StreamSource>(alloc: Global, source: S) -> Result<Linked, ParseError>
    ensures { IfOk result (λ file. IfSome (S.content source) (λ bytes.
        IsErr (opened_file any_is_little any_of_byte bytes) → IsLinkedTo bytes file)) }
{
    let stream = ElfStream::<AnyEndian, S, Global>::open_stream_by_segments(alloc, source)?;
    load_open(stream)
}

// The same of bytes, or why they are no ELF file. The outer error is a failed allocation.
fn load_bytes(alloc: Global, bytes: &[u8]) -> Result<Result<Linked, ParseError>, AllocError>
    ensures { IfOk result (λ found. IsLoadedAs bytes.now found) }
{
    if let Err(error) = ElfBytes::<AnyEndian>::minimal_parse(bytes) {
        return load_segments(alloc, bytes, error);
    }
    match load(alloc, MemSource::new(bytes)) {
        Ok(file) => Ok(Ok(file)),
        Err(_) => Err(AllocError),
    }
}

// The same of bytes whose section headers cannot be read, by this error.
fn load_segments(
    alloc: Global,
    bytes: &[u8],
    error: ParseError,
) -> Result<Result<Linked, ParseError>, AllocError>
    requires { opened_file any_is_little any_of_byte bytes.now ≡ Err error }
    ensures { IfOk result (λ found. IsLoadedAs bytes.now found) }
{
    if let Err(_) = ElfBytes::<AnyEndian>::parse_by_segments(bytes) {
        return Ok(Err(error));
    }
    match load_by_segments(alloc, MemSource::new(bytes)) {
        Ok(file) => Ok(Ok(file)),
        Err(_) => Err(AllocError),
    }
}

// The same of the library at a path, if there is one. A library that cannot be read by parts is read whole.
fn load_library<F: Files>(
    alloc: Global,
    files: &F,
    path: &[u8],
) -> Result<Option<Result<Linked, ParseError>>, AllocError>
    ensures { IfOk result (λ found. IfSome (F.known files.now)
        (λ files. IsLoadedFrom (files.contents path.now) found)) }
{
    match files.open_library(path) {
        Opening::Missing => return Ok(None),
        Opening::Parts(source) => {
            if let Ok(file) = load(alloc, source) {
                return Ok(Some(Ok(file)));
            }
        }
        Opening::Whole => {}
    }
    files.has_libraries();
    match files.read_library(path)? {
        Some(bytes) => Ok(Some(load_bytes(alloc, &bytes)?)),
        None => Ok(None),
    }
}

/// Loads what look-ups use of a file: of its bytes, if they were kept, or else of what is at its path, if it can still be
/// read. The inner error is why it is no ELF file, the outer one a failed allocation.
pub(crate) fn load_object<F: Files>(
    alloc: Global,
    files: &F,
    file: &LoadedFile,
) -> Result<Option<Result<Linked, ParseError>>, AllocError>
    ensures { IfOk result (λ found. let kept = found_view file.now in
        IfSome (content_of (F.known files.now) kept.path kept.bytes) (λ content. IsLoadedFrom content found)) }
{
    if file.bytes.is_empty() {
        return load_library(alloc, files, &file.path);
    }
    Ok(Some(load_bytes(alloc, &file.bytes)?))
}
