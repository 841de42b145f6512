//! Segments by their index in the table.
ghost use Rattle.std.specs.Prelude.{◌≡◌, ◌+◌, ◌<◌, ◌^◌, length, slice_get, IfSome, MatchOption, Some};
ghost use Rattle.elf.specs.ElfBytes.{view};
ghost use Rattle.elf.specs.ObjectFile.{object_file};
ghost use Rattle.elf_check.specs.Segments.{NoneFollows};
ghost use Rattle.elf_check.specs.SegmentsFaults.{IsFirstFrom, IsFirstPair, NoneFrom};

use elf::ElfBytes;
use elf::endian::EndianParse;
use elf::laws::tables::{iter_gives_len_records, iter_gives_whatever_get_gives};
use elf::segment::ProgramHeader;

// How many segments a file has: none if it declares no program headers.
pub(crate) fn segment_count<E: EndianParse>(file: &ElfBytes<'_, E>) -> usize
    ensures { result ≡ length (object_file E.little (view file.now)).segments }
{
    match file.segments() {
        Some(table) => {
            iter_gives_len_records(&table);
            table.len()
        }
        None => 0,
    }
}

// The segment of an index, if there is one.
pub(super) fn segment_at<E: EndianParse>(
    file: &ElfBytes<'_, E>,
    index: usize,
) -> Option<ProgramHeader>
    ensures { slice_get (object_file E.little (view file.now)).segments index ≡ result }
{
    let table = file.segments()?;
    iter_gives_whatever_get_gives(&table, index);
    table.get(index).ok()
}

// A segment below their number.
pub(super) fn segment_below<E: EndianParse>(file: &ElfBytes<'_, E>, index: usize) -> ProgramHeader
    requires { index < length (object_file E.little (view file.now)).segments }
    ensures { slice_get (object_file E.little (view file.now)).segments index ≡ Some result }
{
    segment_at(file, index).unwrap()
}

// The first segment of a type that is not before an index.
fn first_from<E: EndianParse>(file: &ElfBytes<'_, E>, p_type: u32, start: usize) -> Option<usize>
    ensures found { let segments = (object_file E.little (view file.now)).segments in
        MatchOption result (NoneFrom p_type segments start) (IsFirstFrom p_type segments start) }
    ensures below { IfSome result (λ index. index + 1 < 2 ^ 64) }
{
    for index in start..segment_count(file) {
        if segment_below(file, index).p_type == p_type {
            return Some(index);
        }
    }
    None
}

// The first segment of type `earlier`, and the first of type `later` after it.
pub(super) fn first_pair<E: EndianParse>(
    file: &ElfBytes<'_, E>,
    earlier: u32,
    later: u32,
) -> Option<(usize, usize)>
    ensures { let segments = (object_file E.little (view file.now)).segments in
        MatchOption result (NoneFollows earlier later segments)
        (λ pair. IsFirstPair earlier later segments pair.0 pair.1) }
{
    let first = first_from(file, earlier, 0)?;
    let index = first_from(file, later, first + 1)?;
    Some((first, index))
}
