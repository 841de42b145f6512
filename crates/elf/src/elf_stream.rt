//! The reader over a source that is read lazily.
ghost use Rattle.std.specs.List.{filter};
ghost use Rattle.std.specs.Prelude.{◌≡◌, ℕ, ◌≤◌, ◌+◌, ◌^◌, ◌<◌, ◌⊎◌, OnOk, OnErr, IfOk, IfErr};
ghost use Rattle.std.specs.Prelude.{IfSome, Ok, IsOk, false, length, take, drop, true, [], ◌∷◌};
ghost use Rattle.elf_records.specs.Number.{bytes_at, ok_map};
ghost use Rattle.elf.specs.Ranges.{headers_alone, if_there, linked_ranges, linked_section, range_of_section};
ghost use Rattle.elf.specs.Ranges.{range_of_segment, section_ranges};
ghost use Rattle.elf_reading.specs.Opening.{opened_by_segments, opened_file};
ghost use Rattle.elf.specs.ElfStream.{IsFor, IsOfFile, Keeps, IsCached, IsOpening, LoadsRanges, lies_in};
ghost use Rattle.elf_reading.specs.Refusals.{IsAnswer};
ghost use Rattle.elf_reading.specs.Opening.{headers_of, read_headers};
ghost use Rattle.elf_reading.specs.Refusals.{Kind, kind};
ghost use Rattle.elf.specs.ElfStream.{IsRequested};
ghost use Rattle.elf.specs.inner.Loads.{Loads};
ghost use Rattle.elf.specs.inner.Opened.{AreTables};
ghost use Rattle.elf_reading.specs.inner.Reads.{HasLength};

use crate::headers::Headers;
use elf_abi::abi;
use elf_parts::endian::EndianParse;
use elf_parts::file::FileHeader;
use elf_parts::parse::ParseError;
use elf_parts::section::SectionHeader;
use elf_parts::segment::ProgramHeader;
use elf_reading::cache::Cache;
use elf_reading::opening::{SourceHeaders, open_source, open_source_by_segments};
use elf_reading::reads::fetch;
use elf_reading::source::StreamSource;
use std::alloc::Allocator;
use std::marker::Model;

mod closed;
mod data;
mod dynamic;
mod headers;
mod loaded;
mod names;
mod segments;
mod symbols;
mod versions;

pub use closed::Closed;

/// An ELF file that is read from a source as calls need its bytes. Opening it reads its header and its two tables of
/// headers. What later calls read is cached.
///
/// `ehdr` may be changed: the methods use its current class, byte order and `e_shstrndx`. The section and program
/// headers remain those that were read when the file was opened. A method that takes a header reads the range that this
/// header states, even if the caller made the header.
///
/// A call requests the ranges of the sections or segments that it needs. A range that does not lie within a cached one
/// is read and cached, and the result borrows from the cache. A call caches nothing else. A range stays cached as long
/// as the stream exists. If all requested ranges are cached, the call needs neither the source nor memory, and changes
/// nothing.
///
/// If the content of the source is known, a method returns the value that the method of `ElfBytes` with the same name
/// returns over that content, or an error: `IOError` if the source failed in this call; `OutOfMemory`, only if a range
/// that lies in the content is not cached (tested, not proved: only if an allocation failed); another variant only if
/// the method of `ElfBytes` returns an error too. That variant may differ, and the contracts leave it open. After
/// `IOError` or `OutOfMemory` the call may be repeated.
///
/// A range gives `IntegerOverflow` if its end does not fit 64 bits, and `BadOffset(end)` if its end lies past the end
/// of the source.
#[derive(Drop)]
pub struct ElfStream<E: EndianParse, S: StreamSource, A: Allocator + Copy> {
    pub ehdr: FileHeader<E>,
    by_segments: bool,
    declares_sections: bool,
    shdrs: Vec<SectionHeader, A>,
    phdrs: Vec<ProgramHeader, A>,
    alloc: A,
    source: S,
    len: u64,
    cache: Cache<A>,
}

impl<E: EndianParse, S: StreamSource, A: Allocator + Copy> Model for ElfStream<E, S, A> {
    ghost use Rattle.std.specs.Prelude.{map};
    ghost use Rattle.elf.specs.ElfStream.{StreamView};
    ghost use Rattle.elf.specs.inner.Opened.{IsOpened};
    ghost use Rattle.elf_reading.specs.Cache.{range_of};

    ghost Value = { StreamView E };

    ghost view = { λ s. record {
      content = S.content s.source;
      can_fail = S.can_fail s.source;
      failures = S.failures s.source;
      by_segments = s.by_segments;
      headers = record {
        ehdr = s.ehdr;
        declares_sections = s.declares_sections;
        sections = s.shdrs.items;
        segments = s.phdrs.items;
      };
      cached = map range_of s.cache;
      size = s.len;
      parts = s.cache;
    } };

    ghost invariant = { λ s. IsOpened E.little E.of_byte (S.content s.source) s.len s.cache
        s.by_segments s.declares_sections s.shdrs.items s.phdrs.items };
}

impl<E: EndianParse, S: StreamSource, A: Allocator + Copy> ElfStream<E, S, A> {
    ghost use Rattle.elf.specs.Loaded.{AreLoadedOf};

    /// Opens a file: reads its header and the two tables that it declares (gABI, chapters "ELF Header", "Sections" and
    /// "Program Header"). The source is a `FileSource`, a `MemSource` over bytes, or another `StreamSource`. Caches no
    /// other bytes. Allocates memory for the two tables only, and only if both lie in the source.
    ///
    /// If the content of the source is known, the tables are those that `ElfBytes::minimal_parse` finds in it. Returns
    /// an error if that returns one. Otherwise the error is `IOError`, only if the source can fail, or `OutOfMemory`
    /// (tested, not proved: only if an allocation failed); of a file that `minimal_parse` does not open it is never
    /// `OutOfMemory`. The source is dropped with any error.
    ///
    /// ```rust
    /// let source = FileSource::new(File::open(rt, "/bin/sh")?);
    /// let stream = ElfStream::<AnyEndian, _, _>::open_stream(rt.alloc(), source)?;
    /// println!(rt; "{} sections", stream.section_headers().len())?;
    /// ```
    pub fn open_stream(alloc: A, mut reader: S) -> Result<Self, ParseError>
        ensures content { IfOk result (λ s. (s.content ≡ S.content reader) × (s.can_fail ≡ S.can_fail reader)) }
        ensures cached { IfOk result (λ s. s.cached ≡ []) }
        ensures tables { IfOk result (λ s. s.by_segments ≡ false) }
        ensures opening { IfSome (S.content reader) (λ bytes. IsOpening
            (ok_map headers_of (opened_file E.little E.of_byte bytes)) (S.can_fail reader) (S.failures reader) result) }
    {
        let found = open_source(alloc, &mut reader)?;
        Ok(ElfStream::with_headers(alloc, reader, found, false))
    }

    /// Opens a file by its header and its program headers alone, as the dynamic linker does (gABI, chapter "Program
    /// Header"). So a file whose section headers cannot be read, as when its end was cut off, is still read through its
    /// segments; it declares no section headers. Caches no other bytes. Allocates memory for the program headers only,
    /// and only if they lie in the source.
    ///
    /// If the content of the source is known, the program headers are those that `ElfBytes::parse_by_segments` finds in
    /// it. Returns an error if that returns one. Otherwise the error is `IOError`, only if the source can fail, or
    /// `OutOfMemory` (tested, not proved: only if an allocation failed); of a file that `parse_by_segments` does not open
    /// it is never `OutOfMemory`. The source is dropped with any error.
    ///
    /// Errors, in order: those of the header, then those of the program headers. A range gives `BadOffset(end)` if it
    /// does not lie in the source; the others are those of `ElfBytes::parse_by_segments`.
    ///
    /// ```rust
    /// let source = FileSource::new(File::open(rt, "/bin/sh")?);
    /// let stream = ElfStream::<AnyEndian, _, _>::open_stream_by_segments(rt.alloc(), source)?;
    /// println!(rt; "{} segments", stream.segments().len())?;
    /// ```
    pub fn open_stream_by_segments(alloc: A, mut reader: S) -> Result<Self, ParseError>
        ensures content { IfOk result (λ s. (s.content ≡ S.content reader) × (s.can_fail ≡ S.can_fail reader)) }
        ensures cached { IfOk result (λ s. s.cached ≡ []) }
        ensures tables { IfOk result (λ s. s.by_segments ≡ true) }
        ensures opening { IfSome (S.content reader) (λ bytes. IsOpening
            (ok_map headers_of (opened_by_segments E.little E.of_byte bytes)) (S.can_fail reader) (S.failures reader)
            result) }
    {
        let found = open_source_by_segments(alloc, &mut reader)?;
        Ok(ElfStream::with_headers(alloc, reader, found, true))
    }

    // A stream over a source, with the headers that were read from it. Nothing is cached.
    fn with_headers(alloc: A, source: S, found: SourceHeaders<E, A>, by_segments: bool) -> Self
        requires length { HasLength S.StreamSource source found.len }
        requires tables { IfSome (S.content source) (λ bytes. AreTables E.little E.of_byte by_segments bytes
            found.declares_sections found.shdrs.items found.phdrs.items) }
        ensures source { (result.content ≡ S.content source) × (result.can_fail ≡ S.can_fail source)
            × (result.failures ≡ S.failures source) }
        ensures opened { (result.headers ≡ read_headers found) × (result.by_segments ≡ by_segments) }
        ensures cached { result.cached ≡ [] }
    {
        ElfStream {
            ehdr: found.ehdr,
            by_segments,
            declares_sections: found.declares_sections,
            shdrs: found.shdrs,
            phdrs: found.phdrs,
            alloc,
            source,
            len: found.len,
            cache: Cache::new(alloc),
        }
    }

    /// States that the tables of a stream are those of its file: if the content of the source is known, opening it as
    /// the stream was opened succeeds and gives these section and program headers, whatever header `ehdr` now holds.
    pub fn is_of_file(&self)
        ensures { IfSome self.now.content (λ bytes. IsOfFile E.little E.of_byte bytes self.now) }
    {
        let _ = &self.ehdr;
    }

    /// States that every range within a cached range is cached.
    pub fn cached_covers(&self)
        ensures { (start end low high : ℕ) → low ≤ start → end ≤ high
            → IsCached self.now low high → IsCached self.now start end }
    {}

    /// Returns the length of the source in bytes, as it was when the file was opened.
    pub fn source_len(&self) -> u64
        ensures { IfSome self.now.content (λ bytes. result ≡ length bytes) }
    {
        self.len
    }

    /// Returns the program headers. There are none if the file declares none.
    pub fn segments(&self) -> &Vec<ProgramHeader, A>
        ensures { result.now.items ≡ self.now.headers.segments }
    {
        &self.phdrs
    }

    /// Returns the section headers. There are none if the file declares none.
    pub fn section_headers(&self) -> &Vec<SectionHeader, A>
        ensures { result.now.items ≡ self.now.headers.sections }
    {
        &self.shdrs
    }

    // Reads `size` bytes from `start` on into the cache, unless they are cached.
    fn load(&mut self, start: u64, size: u64) -> Result<(), ParseError>
        ensures keeps { Keeps self.old self.new }
        ensures loaded { OnOk result ((start + size < 2 ^ 64) × IsCached self.new start (start + size)) }
        ensures only { (low high : ℕ) → IsCached self.new low high
            → IsCached self.old low high ⊎ IsRequested ((start, size) ∷ []) low high }
        ensures refused { OnErr result (self.new.cached ≡ self.old.cached) }
        ensures answer { IfSome self.old.content (λ bytes.
            IsAnswer (λ _. take size (drop start bytes)) (bytes_at size bytes start)
            self.old.can_fail self.old.failures self.new.failures result) }
        ensures untouched { IsCached self.old start (start + size)
            → (self.new ≡ self.old) × IfErr result (λ e. kind e ≡ Kind.Refusal) }
        ensures needed { IfSome self.old.content (λ bytes.
            IfErr result (λ e. IsFor (IsOk (bytes_at size bytes start)) (kind e))) }
    {
        let Some(end) = start.checked_add(size) else {
            return Err(ParseError::IntegerOverflow);
        };
        if self.cache.holds(start, end) {
            return Ok(());
        }
        if end > self.len {
            return Err(ParseError::BadOffset(end));
        }
        let bytes = fetch(self.alloc, &mut self.source, start, end)?;
        self.cache.put(start, bytes)
    }

    // Reads a range into the cache, unless it is cached or does not lie in the source.
    fn load_inside(&mut self, start: u64, size: u64) -> Result<(), ParseError>
        ensures { Loads (filter (lies_in self.old.size) ((start, size) ∷ [])) self.old self.new result }
    {
        let Some(end) = start.checked_add(size) else {
            return Ok(());
        };
        if end > self.len {
            return Ok(());
        }
        self.load(start, size)
    }

    /// Loads a range: reads it into the cache, unless it is cached. A range that does not lie in the source is not
    /// loaded, and is no error. Errors: `IOError` if the source failed, `OutOfMemory`.
    pub fn load_range(&mut self, start: u64, size: u64) -> Result<(), ParseError>
        ensures { LoadsRanges ((start, size) ∷ []) self.old self.new result }
    {
        self.is_part_of_file();
        self.load_inside(start, size)
    }

    // The section that a section links to, if both are there.
    fn linked_section(&self, shdr: Option<SectionHeader>) -> Option<SectionHeader>
        ensures { result ≡ linked_section (headers_alone E.little self.now) shdr }
    {
        match shdr {
            Some(shdr) => self.section_at(shdr.sh_link as usize).ok(),
            None => None,
        }
    }

    // Reads the range of a section into the cache, if the section is there and has bytes, which lie in the source.
    fn load_if_there(&mut self, shdr: Option<SectionHeader>) -> Result<(), ParseError>
        ensures { Loads (filter (lies_in self.old.size) (if_there section_ranges shdr)) self.old self.new result }
    {
        let Some(shdr) = shdr else {
            return Ok(());
        };
        if shdr.sh_type == abi::SHT_NOBITS {
            return Ok(());
        }
        self.load_inside(shdr.sh_offset, shdr.sh_size)
    }

    /// Loads the ranges of a section, of the section that its `sh_link` names, and of the one that this names in turn:
    /// relocations and hash tables link to symbols, and symbols to strings. So the functions of `elf::reader` find what
    /// they need of the section. A section of type `SHT_NOBITS` has no range, and a link that names no section is
    /// ignored. A range that does not lie in the source is not loaded, and is no error. Errors: `IOError` if the
    /// source failed, `OutOfMemory`.
    pub fn load_linked(&mut self, shdr: &SectionHeader) -> Result<(), ParseError>
        ensures { LoadsRanges (linked_ranges (headers_alone E.little self.old) shdr.now) self.old self.new result }
    {
        let section = Some(*shdr);
        let linked = self.linked_section(section);
        let last = self.linked_section(linked);
        self.is_part_of_file();
        self.load_if_there(section)?;
        self.load_if_there(linked)?;
        self.load_if_there(last)
    }

    /// States that what is loaded is of the content, if that is known: a range is read as the file has it, or is not
    /// cached. By `part_answers_as_whole` the same is true of all that is read of these ranges.
    pub fn is_part_of_file(&self)
        ensures { IfSome self.now.content (λ bytes. AreLoadedOf E.little self.now bytes) }
    {
        let _ = &self.ehdr;
    }

    // Reads the range of a section into the cache.
    fn load_section(&mut self, shdr: &SectionHeader) -> Result<(), ParseError>
        ensures { Loads (range_of_section shdr.now ∷ []) self.old self.new result }
    {
        self.load(shdr.sh_offset, shdr.sh_size)
    }

    // Reads the range of a segment into the cache.
    fn load_segment(&mut self, phdr: &ProgramHeader) -> Result<(), ParseError>
        ensures { Loads (range_of_segment phdr.now ∷ []) self.old self.new result }
    {
        self.load(phdr.p_offset, phdr.p_filesz)
    }
}
