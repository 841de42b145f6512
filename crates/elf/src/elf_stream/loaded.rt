//! The ranges that a stream has loaded.
ghost use Rattle.std.specs.Prelude.{◌≡◌, ◌≤◌, IfErr, IfOk, length};
ghost use Rattle.elf_records.specs.Number.{ok_map};
ghost use Rattle.elf.specs.Parts.{IsPlain, loaded_range};

use crate::read_error::ReadError;
use elf_parts::parse::ParseError;
use elf_reading::cache::Cache;
use std::alloc::Allocator;

// The bytes of a range of a file of this length; the cache has some of its parts.
pub(super) fn cached_range<A: Allocator>(
    cache: &Cache<A>,
    len: u64,
    start: u64,
    size: u64,
) -> Result<&[u8], ReadError>
    ensures value { ok_map (λ part. part.now) result ≡ loaded_range len cache.now start size }
    ensures size { IfOk result (λ part. length part.now ≤ size) }
    ensures plain { IfErr result IsPlain }
{
    let Some(end) = start.checked_add(size) else {
        return Err(ReadError::Parse(ParseError::IntegerOverflow));
    };
    match cache.get(start, end) {
        Some(bytes) => Ok(bytes),
        None if len < end => Err(ReadError::Parse(ParseError::SliceReadError((
            start as usize,
            end as usize,
        )))),
        None => Err(ReadError::NotLoaded((start, end))),
    }
}
