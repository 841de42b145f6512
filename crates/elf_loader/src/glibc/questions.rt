//! All questions to a file, in the order of the dynamic linker.
ghost use Rattle.std.specs.Prelude.{◌≡◌};
ghost use Rattle.elf_loader.specs.Glibc.{asked, header_verdict, loaded_file, mapped_verdict, verdict};
ghost use Rattle.elf_loader.specs.inner.Glibc.{with_view};
ghost use Rattle.elf_records.specs.Number.{ok_map};
ghost use Rattle.elf_records.specs.Segment.{program_header_reads};
ghost use Rattle.elf_records.specs.Table.{table_items, table_view};

use crate::glibc::dynamic_info::{check_entries, check_hash, dynamic_place};
use crate::glibc::header::{
    check_fields, check_ident, header_bytes, header_fields, program_headers, read,
};
use crate::glibc::segments::check_segments;
use crate::glibc::{Candidate, Kind, Loadable, Refusal, Stop};
use elf::LoadedParts;
use elf::dynamic::DynamicTable;
use elf::endian::AnyEndian;
use elf::segment::SegmentTable;

// The questions to the header. Returns the type of the file, and its program headers.
fn check_header<'f>(
    kind: &Kind,
    file: &LoadedParts<'f>,
) -> Result<(u16, SegmentTable<'f, AnyEndian>), Stop>
    ensures { ok_map with_view result ≡ header_verdict kind.now (loaded_file file.now) }
{
    let header = header_bytes(kind, file)?;
    check_ident(kind, header)?;
    let fields = header_fields(kind, header)?;
    check_fields(kind, &fields)?;
    let table = program_headers(kind, file, &fields)?;
    Ok((fields.e_type, table))
}

// The questions to what is mapped.
fn check_mapped(
    kind: &Kind,
    file: &LoadedParts<'_>,
    table: &SegmentTable<'_, AnyEndian>,
) -> Result<Loadable, Stop>
    ensures { result
        ≡ mapped_verdict kind.now (loaded_file file.now) (table_items program_header_reads (table_view table.now)) }
{
    let (start, size) = dynamic_place(file, table)?;
    let bytes = read(file, start, size, Refusal::DynamicOutside)?;
    let entries = DynamicTable::new(kind.order, kind.class, bytes);
    check_entries(kind, &entries)?;
    check_hash(kind, file, table, &entries)?;
    Ok(Loadable { start, size })
}

// All questions.
fn asked(kind: &Kind, file: &LoadedParts<'_>) -> Result<Loadable, Stop>
    ensures { result ≡ asked kind.now (loaded_file file.now) }
{
    let (e_type, table) = check_header(kind, file)?;
    check_segments(kind, e_type, &table)?;
    check_mapped(kind, file, &table)
}

/// Returns what the dynamic linker does with a file that it finds for the name of a library of a program: it loads the
/// file, it skips it, or it ends and says why. `wanted` is what the program is.
///
/// The error is the range, by its start and its end, that has to be loaded before this is known: the caller loads it
/// and calls again.
///
/// ```rust
/// let program = Kind {
///     class: Class::ELF64,
///     order: AnyEndian::Little,
///     machine: EM_X86_64,
///     page_size: 0x1000,
///     address_space: 0x7fff_ffff_f000,
/// };
/// let library = LoadedParts {
///     size: bytes.len() as u64,
///     front: bytes,
///     ranges: &[],
/// };
/// match verdict(&program, &library) {
///     Ok(Candidate::Loadable(_)) => println!(rt; "it is loaded")?,
///     Ok(Candidate::Skipped(reason)) => println!(rt; "the search goes on: {reason}")?,
///     Ok(Candidate::Refused(refusal)) => println!(rt; "the program does not start: {refusal}")?,
///     Err((start, end)) => println!(rt; "bytes {start} to {end} are not loaded")?,
/// }
/// ```
#[tactic(auto, unfolding(crate::specs::Glibc::verdict))]
pub fn verdict(wanted: &Kind, file: &LoadedParts<'_>) -> Result<Candidate, (u64, u64)>
    ensures { result ≡ verdict wanted.now (loaded_file file.now) }
{
    match asked(wanted, file) {
        Ok(loadable) => Ok(Candidate::Loadable(loadable)),
        Err(Stop::Missing(range)) => Err(range),
        Err(Stop::Skipped(reason)) => Ok(Candidate::Skipped(reason)),
        Err(Stop::Refused(refusal)) => Ok(Candidate::Refused(refusal)),
    }
}
