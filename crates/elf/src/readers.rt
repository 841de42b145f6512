//! Laws: both readers return the same.
ghost use Rattle.std.specs.Prelude.{◌≡◌, ℕ, Bool, List, All, IfSome, Ok, Some, slice_get};
ghost use Rattle.std.specs.Result.{result_ok};
ghost use Rattle.elf.specs.Parts.{ArePartOf, Follows, Ranges, all_ranges, loaded};
ghost use Rattle.elf.specs.ObjectFile.{ObjectFile, err_map};
ghost use Rattle.elf.specs.declared.read_error.ReadError.TheVariants.{Parse};
ghost use Rattle.elf.specs.Readers.{AreAlike, AreMade, Call, IsAnsweredAlike, Method, answer, requested_ranges};
ghost use Rattle.elf.specs.Loaded.{AreLoadedOf, loaded_ranges, streamed_file};
ghost use Rattle.elf.specs.Ranges.{headers_alone};
ghost use Rattle.elf.specs.StreamFile.{stream_file};
ghost use Rattle.elf.specs.ObjectFile.{object_file};
ghost use Rattle.elf_reading.specs.Opening.{opened_file};
ghost use Rattle.elf.specs.Readers.{SameAnswers};
ghost use Rattle.elf.specs.ElfStream.{AreCached, StreamView, opened_as};
ghost use Rattle.elf_reading.specs.Opening.{headers_of};
ghost use Rattle.elf.specs.ElfBytes.{view, with_header};
ghost use Rattle.elf_reading.specs.Opening.{FileView};
ghost use Rattle.elf_records.specs.declared.file.FileHeader.{FileHeader};

use crate::elf_bytes::ElfBytes;
use crate::elf_stream::ElfStream;
use elf_parts::endian::EndianParse;
use elf_parts::laws::lists::list_is_what_get_gives;
use elf_parts::section::SectionHeader;
use elf_reading::source::StreamSource;
use std::alloc::Allocator;

/// States that section i of the list of sections is the section of index i.
pub fn sections_are_listed<E: EndianParse>(file: &ElfBytes<'_, E>)
    ensures { let whole = object_file E.little (view file.now) in
        (i : ℕ) → slice_get whole.sections i ≡ result_ok (whole.section_at i) }
{
    list_is_what_get_gives::<SectionHeader>();
    match file.section_headers() {
        Some(shdrs) => {
            let _ = shdrs.len();
        }
        None => {}
    }
}

/// The main theorem, about lists of calls. Take a stream over known content that was opened from it, with its section
/// headers or by its segments alone, whatever calls were made since. Then each call of a list of calls returns what
/// `ElfBytes` over that content returns, whatever header is put into `ehdr` before the call: the same value, or an error
/// from both. If the stream alone returns an error, that is `IOError` or `OutOfMemory`.
///
/// It follows from `tables`: the methods of an opened file return the same, whether its headers are in the file's tables,
/// as for `ElfBytes`, or in lists, as for an `ElfStream`, for every header in `ehdr`, if it is the same in both.
pub fn calls_answer_alike<E: EndianParse>()
    ensures tables { (bytes : List ℕ) (v : FileView E) (header : FileHeader E) (s : StreamView E) →
        opened_file E.little E.of_byte bytes ≡ Ok v → s.headers ≡ headers_of (with_header v header) →
        SameAnswers (object_file E.little (with_header v header)) (stream_file E.little s bytes) }
    ensures calls { (bytes : List ℕ) (v : FileView E) (s : StreamView E) (calls : List (Call E)) (by_segments : Bool) →
        opened_as E.little E.of_byte by_segments bytes ≡ Ok v → s.content ≡ Some bytes →
        s.headers ≡ headers_of (with_header v s.headers.ehdr) → AreMade E.little s calls →
        All (IsAnsweredAlike E.little v) calls }
{
    list_is_what_get_gives::<SectionHeader>();
}

/// States that what a stream over known content returns about its file is what `ElfBytes` over that content returns, if
/// that is opened as the stream was and has the header that the stream has now: the same value, or an error from both.
pub fn stream_answers_as_bytes<E: EndianParse, S: StreamSource, A: Allocator + Copy>(
    stream: &ElfStream<E, S, A>,
)
    ensures { IfSome stream.now.content (λ bytes. (v : FileView E)
        × (opened_as E.little E.of_byte stream.now.by_segments bytes ≡ Ok v)
        × SameAnswers (object_file E.little (with_header v stream.now.headers.ehdr))
        (stream_file E.little stream.now bytes)) }
{
    stream.is_of_file();
    list_is_what_get_gives::<SectionHeader>();
}

/// States that a partly loaded file answers each method as the whole file does, with the same value or the same error, or
/// names a range that is missing; that one all of whose ranges are loaded answers it as the file does; and that what is
/// loaded of a stream does, if the ranges that the method requests are cached, with the same value or an error from both.
pub fn part_answers_as_whole<E: EndianParse>()
    ensures part { (whole : ObjectFile) (range : Ranges) (is_missing : ℕ × ℕ → Bool) → ArePartOf whole is_missing range
        → (m : Method) → Follows is_missing (answer m whole) (answer m (loaded whole range)) }
    ensures all { (whole : ObjectFile) (m : Method)
        → answer m (loaded whole (all_ranges whole)) ≡ err_map Parse (answer m whole) }
    ensures cached { (s : StreamView E) (bytes : List ℕ) → AreLoadedOf E.little s bytes → (m : Method)
        → AreCached s (requested_ranges m (headers_alone E.little s))
        → AreAlike (answer m (stream_file E.little s bytes))
        (answer m (loaded (streamed_file E.little s) (loaded_ranges s))) }
{}
