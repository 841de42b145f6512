//! Lists of calls of a stream: of the methods that both readers have, and of those that load ranges and return nothing;
//! and the call that closes its source.
ghost use Rattle.std.specs.Prelude.{◌≤◌, IfSome, [], ◌∷◌};
ghost use Rattle.elf.specs.ElfStream.{IsClosed, LoadsRanges};
ghost use Rattle.elf.specs.Loaded.{AreLoadedOf};
ghost use Rattle.elf.specs.Ranges.{headers_alone};
ghost use Rattle.elf_laws.specs.Steps.{AreTakenAlike, AreTakenWith, ranges_of};

use crate::asked::{Asked, make};
use elf::endian::EndianParse;
use elf::file::FileHeader;
use elf::readers::calls_answer_alike;
use elf::section::SectionHeader;
use elf::{Closed, ElfStream, ParseError, StreamSource};
use std::alloc::Allocator;

/// A call of a stream that loads ranges: the method of this name, with its arguments.
#[derive(Clone, Copy, Debug)]
pub enum Loading {
    LoadRange { start: u64, size: u64 },
    LoadLinked(SectionHeader),
}

/// A call of a stream: of a method that both readers have, with the header that is put into `ehdr` before it; or one
/// that loads ranges.
#[derive(Clone, Copy, Debug)]
pub enum Step<'a, E: EndianParse> {
    Call(FileHeader<E>, Asked<'a>),
    Load(Loading),
}

/// Calls a method of a stream that loads ranges, and returns what it returns.
///
/// It loads those of its ranges that lie in the source. The content, the headers and all that is cached stay
/// (`LoadsRanges`), so a list of calls goes on from there, as `take_all` says.
pub fn load<E: EndianParse, S: StreamSource, A: Allocator + Copy>(
    stream: &mut ElfStream<E, S, A>,
    loading: &Loading,
) -> Result<(), ParseError>
    ensures { LoadsRanges (ranges_of (headers_alone E.little stream.old) loading.now) stream.old stream.new result }
{
    match loading {
        Loading::LoadRange { start, size } => stream.load_range(*start, *size),
        Loading::LoadLinked(section) => stream.load_linked(section),
    }
}

/// Closes the source of a stream. Its headers and all that is cached stay.
///
/// If the content was known, what is loaded is still of this content. So by `part_answers_as_whole` a method whose
/// ranges are cached answers over what is loaded as it answers over the file.
pub fn close<E: EndianParse, S: StreamSource, A: Allocator + Copy>(
    stream: ElfStream<E, S, A>,
) -> ElfStream<E, Closed, A>
    ensures closed { IsClosed stream result }
    ensures loaded { IfSome stream.content (λ bytes. AreLoadedOf E.little result bytes) }
{
    stream.is_part_of_file();
    stream.close()
}

/// Makes calls of a stream one after another, whatever they return: of methods that both readers have, each with its
/// header put into `ehdr` before it, and between them calls that load ranges. Returns how many of the former returned an
/// error.
///
/// If the content of the source is known, each of these returned what `ElfBytes` over this content returns, if that is
/// opened as the stream was and has the header of the call: the same value, or an error from both, or `IOError` or
/// `OutOfMemory`.
pub fn take_all<E: EndianParse, S: StreamSource, A: Allocator + Copy>(
    stream: &mut ElfStream<E, S, A>,
    steps: &[Step<'_, E>],
) -> usize
    ensures { AreTakenAlike E.little E.of_byte steps.now stream.old stream.new result }
{
    stream.is_of_file();
    calls_answer_alike::<E>();
    let mut refused = 0;
    for step in steps {
        refused += take(stream, step);
    }
    refused
}

// Takes a step, and returns how many calls returned an error: one or none.
fn take<E: EndianParse, S: StreamSource, A: Allocator + Copy>(
    stream: &mut ElfStream<E, S, A>,
    step: &Step<'_, E>,
) -> usize
    ensures taken { AreTakenWith E.little (step.now ∷ []) stream.old stream.new result (λ _. Unit {0}) }
    ensures one { result ≤ 1 }
{
    match step {
        Step::Call(header, asked) => match make(stream, *header, asked) {
            Ok(()) => 0,
            Err(_) => 1,
        },
        Step::Load(loading) => {
            let _ = load(stream, loading);
            0
        }
    }
}
