//! The cache of the dynamic linker of glibc, `/etc/ld.so.cache`: libraries by their names, with their paths. The program
//! `ldconfig` writes it (glibc, `sysdeps/generic/dl-cache.h`).
//!
//! Only the format `glibc-ld.so.cache1.1` is read, also if it follows a cache of the older format `ld.so-1.7.0`.
//! Of the entries for some processors only those for subfolders of `glibc-hwcaps` are read, and not the level that such a
//! library itself needs. Two names are the same if their bytes are; glibc also ignores zeros before a number in a name. A
//! file that gives the path of an entry is not looked for.
ghost use Rattle.std.specs.Prelude.{◌≡◌, ◌==◌, map, refl, true};
ghost use Rattle.std.specs.List.{find, list_any};
ghost use Rattle.std.specs.Option.{option_map};
ghost use Rattle.elf_records.specs.Endian.{any_is_little};
ghost use Rattle.elf_records.specs.Number.{ok_map};
ghost use Rattle.elf_records.specs.StringTable.{string_at};
ghost use Rattle.elf_records.specs.Table.{table_items, table_view};
ghost use Rattle.elf_libraries.specs.Cache.{aligned, cache_bytes, cache_in, cache_of, cache_view, checked_header, end_of_old};
ghost use Rattle.elf_libraries.specs.Cache.{cached_path, content_of, entries_of, entry_bytes, flags_of, flags_of_32};
ghost use Rattle.elf_libraries.specs.Cache.{flags_of_64, flags_view, has_hwcaps, header_of, hwcap_bytes, is_for, is_in_order};
ghost use Rattle.elf_libraries.specs.Cache.{is_name, lists, new_at, or_empty, path_at, path_for, place_in, section_bytes};
ghost use Rattle.elf_libraries.specs.Cache.{section_count, section_reads};
ghost use Rattle.elf_libraries.specs.declared.cache.CacheError.TheVariants.{Read as IsRead};

use elf_abi::abi;
use elf_records::endian::{AnyEndian, EndianParse};
use elf_records::file::Class;
use elf_records::parse::{ParseAt, ParseError, ParsingTable, get_bytes};
use elf_records::slices::rest_of;
use elf_records::string_table::{StringTable, TerminatedStrings};
use thiserror::Error;

// The first bytes of a cache, and of one of the older format.
const NEW_MAGIC: &[u8] = b"glibc-ld.so.cache1.1";

const OLD_MAGIC: &[u8] = b"ld.so-1.7.0";

// The first word of the directory of extensions, and the tag of the section that lists subfolders.
const EXTENSION_MAGIC: u32 = 0xeaa4_2174;

const HWCAPS_TAG: u32 = 1;

// Sizes in bytes.
const HEADER_SIZE: usize = 48;

const ENTRY_SIZE: usize = 24;

const SECTION_SIZE: usize = 16;

const OLD_HEADER_SIZE: usize = 16;

const OLD_ENTRY_SIZE: usize = 12;

/// Why a file is no cache that can be read.
#[derive(Debug, Drop, Error)]
pub enum CacheError {
    /// It begins neither with `glibc-ld.so.cache1.1` nor with `ld.so-1.7.0`.
    #[error("no cache of the dynamic linker")]
    Magic,
    /// It is a cache of the older format alone.
    #[error("a cache in the format of glibc before 2.2")]
    OldFormat,
    /// The flags of its header say that it is invalid, or name another byte order. Holds the flags.
    #[error("a cache of another byte order: flags {0:#x}")]
    ByteOrder(u8),
    /// The header or the entries do not lie in the file.
    #[error("{0}")]
    Read(ParseError),
}

impl From<ParseError> for CacheError {
    ghost from_gives = { λ inner error. error ≡ IsRead inner };

    fn from(error: ParseError) -> CacheError {
        CacheError::Read(error)
    }
}

/// The header of a cache, without what nothing is read by.
#[derive(Clone, Copy, Debug, PartialEq, Eq)]
pub struct CacheHeader {
    /// The number of entries.
    pub nlibs: u32,
    /// The byte order, in the lowest two bits.
    pub flags: u8,
    /// The offset of the directory of extensions in bytes, or 0.
    pub extension_offset: u32,
}

/// An entry of a cache, which lists a library.
#[derive(Clone, Copy, Debug, PartialEq, Eq)]
pub struct CacheEntry {
    /// The type of the library and its ABI.
    pub flags: u32,
    /// The offset of its name, in bytes from the start of the cache.
    pub key: u32,
    /// The offset of its path, in bytes from the start of the cache.
    pub value: u32,
    /// Not used.
    pub osversion: u32,
    /// What the processor must have, or 0.
    pub hwcap: u64,
}

impl ParseAt for CacheEntry {
    ghost use Rattle.elf_libraries.specs.Cache.{entry_reads};

    const SHAPE: (usize, usize, bool) = (ENTRY_SIZE, ENTRY_SIZE, true);

    ghost SHAPE = { (24, 24, true) };

    ghost reads = { entry_reads };

    ghost shape_law = { refl };

    #[tactic(auto, unfolding(elf_records::specs::Record::numbers_at, elf_records::specs::Record::numbers_end))]
    fn parse_at<E: EndianParse>(
        endian: E,
        _class: Class,
        offset: &mut usize,
        data: &[u8],
    ) -> Result<Self, ParseError> {
        Ok(CacheEntry {
            flags: endian.parse_u32_at(offset, data)?,
            key: endian.parse_u32_at(offset, data)?,
            value: endian.parse_u32_at(offset, data)?,
            osversion: endian.parse_u32_at(offset, data)?,
            hwcap: endian.parse_u64_at(offset, data)?,
        })
    }
}

/// A section of the directory of extensions.
#[derive(Clone, Copy, Debug, PartialEq, Eq)]
pub struct ExtensionSection {
    /// What the section has.
    pub tag: u32,
    /// Not used.
    pub flags: u32,
    /// Its offset, in bytes from the start of the cache.
    pub offset: u32,
    /// Its size in bytes.
    pub size: u32,
}

impl ParseAt for ExtensionSection {
    ghost use Rattle.elf_libraries.specs.Cache.{section_reads};

    const SHAPE: (usize, usize, bool) = (SECTION_SIZE, SECTION_SIZE, true);

    ghost SHAPE = { (16, 16, true) };

    ghost reads = { section_reads };

    ghost shape_law = { refl };

    #[tactic(auto, unfolding(elf_records::specs::Record::numbers_at, elf_records::specs::Record::numbers_end))]
    fn parse_at<E: EndianParse>(
        endian: E,
        _class: Class,
        offset: &mut usize,
        data: &[u8],
    ) -> Result<Self, ParseError> {
        Ok(ExtensionSection {
            tag: endian.parse_u32_at(offset, data)?,
            flags: endian.parse_u32_at(offset, data)?,
            offset: endian.parse_u32_at(offset, data)?,
            size: endian.parse_u32_at(offset, data)?,
        })
    }
}

static SPARC_64: [u32; 1] = [0x0103];

static IA_64: [u32; 1] = [0x0203];

static X86_64: [u32; 1] = [0x0303];

static S390X: [u32; 1] = [0x0403];

static POWERPC_64: [u32; 1] = [0x0503];

static MIPS_64: [u32; 1] = [0x0703];

static X32: [u32; 1] = [0x0803];

static ARM_HARD_FLOAT: [u32; 2] = [0x0903, 0x0003];

static AARCH64: [u32; 1] = [0x0a03];

static RISCV_DOUBLE: [u32; 1] = [0x1003];

static LOONGARCH_DOUBLE: [u32; 1] = [0x1203];

static OTHERS: [u32; 2] = [0x0003, 0x0001];

/// The flags of the entries that list libraries for a program.
#[derive(Clone, Copy, Debug)]
pub struct LibraryFlags {
    flags: &'static [u32],
}

impl LibraryFlags {
    /// Returns the flags for the machine, one of `EM_*`, and the class of a program's header. Where a machine has more
    /// than one ABI, the flags are those of hard floating point (ARM), of double precision (RISC-V, LoongArch), and of
    /// the ABI n64 or o32 (MIPS).
    pub fn of(machine: u16, class: Class) -> Self
        ensures { flags_view result ≡ flags_of machine class }
    {
        let flags = match class {
            Class::ELF64 => flags_of_64(machine),
            Class::ELF32 => flags_of_32(machine),
        };
        LibraryFlags { flags }
    }

    fn have(&self, flags: u32) -> bool
        ensures { result ≡ list_any (λ flag. flag == flags) (flags_view self.now) }
    {
        self.flags.iter().any(|flag| *flag == flags)
    }
}

fn flags_of_64(machine: u16) -> &'static [u32]
    ensures { result.now ≡ flags_of_64 machine }
{
    match machine {
        abi::EM_SPARCV9 => &SPARC_64,
        abi::EM_IA_64 => &IA_64,
        abi::EM_X86_64 => &X86_64,
        abi::EM_S390 => &S390X,
        abi::EM_PPC64 => &POWERPC_64,
        abi::EM_MIPS => &MIPS_64,
        abi::EM_AARCH64 => &AARCH64,
        abi::EM_RISCV => &RISCV_DOUBLE,
        abi::EM_LOONGARCH => &LOONGARCH_DOUBLE,
        _ => &OTHERS,
    }
}

fn flags_of_32(machine: u16) -> &'static [u32]
    ensures { result.now ≡ flags_of_32 machine }
{
    match machine {
        abi::EM_X86_64 => &X32,
        abi::EM_ARM => &ARM_HARD_FLOAT,
        _ => &OTHERS,
    }
}

// Whether an entry with this `hwcap` is for the subfolder with a place in the list, or for every processor.
fn is_for(place: Option<usize>, hwcap: u64) -> bool
    ensures { result ≡ is_for place hwcap }
{
    match place {
        Some(place) => {
            hwcap / 0x400_0000_0000 == 0x10_0000 && hwcap % 0x1_0000_0000 == place as u64
        }
        None => hwcap == 0,
    }
}

// Where the cache of the older format ends, with what aligns the next one.
fn end_of_old(order: AnyEndian, file: &[u8]) -> Result<usize, ParseError>
    ensures { result ≡ end_of_old (any_is_little order) file.now }
{
    let mut offset = 12;
    let count = order.parse_u32_at(&mut offset, file)?;
    Ok((OLD_HEADER_SIZE + OLD_ENTRY_SIZE * count as usize + 7) / 8 * 8)
}

// The cache after one of the older format.
fn new_at(file: &[u8], start: usize) -> Result<&[u8], CacheError>
    ensures { ok_map (λ bytes. bytes.now) result ≡ new_at file.now start }
{
    let bytes = rest_of(start, file);
    if bytes.starts_with(NEW_MAGIC) {
        Ok(bytes)
    } else {
        Err(CacheError::OldFormat)
    }
}

// The bytes of a file from its cache on.
fn cache_bytes(order: AnyEndian, file: &[u8]) -> Result<&[u8], CacheError>
    ensures { ok_map (λ bytes. bytes.now) result ≡ cache_bytes (any_is_little order) file.now }
{
    if file.starts_with(NEW_MAGIC) {
        return Ok(file);
    }
    if !file.starts_with(OLD_MAGIC) {
        return Err(CacheError::Magic);
    }
    let start = end_of_old(order, file)?;
    new_at(file, start)
}

#[tactic(auto, unfolding(elf_records::specs::Record::numbers_at))]
fn header_of(order: AnyEndian, bytes: &[u8]) -> Result<CacheHeader, ParseError>
    ensures { result ≡ header_of (any_is_little order) bytes.now }
{
    let mut offset = 20;
    let nlibs = order.parse_u32_at(&mut offset, bytes)?;
    offset = 28;
    let flags = order.parse_u8_at(&mut offset, bytes)?;
    offset = 32;
    let extension_offset = order.parse_u32_at(&mut offset, bytes)?;
    Ok(CacheHeader {
        nlibs,
        flags,
        extension_offset,
    })
}

// Whether the flags of a header name this order, or none.
fn is_in_order(order: AnyEndian, flags: u8) -> bool
    ensures { result ≡ is_in_order (any_is_little order) flags }
{
    let named = match order {
        AnyEndian::Little => 2,
        AnyEndian::Big => 3,
    };
    flags % 4 == 0 || flags % 4 == named
}

fn checked_header(order: AnyEndian, bytes: &[u8]) -> Result<CacheHeader, CacheError>
    ensures { result ≡ checked_header (any_is_little order) bytes.now }
{
    let header = header_of(order, bytes)?;
    if is_in_order(order, header.flags) {
        Ok(header)
    } else {
        Err(CacheError::ByteOrder(header.flags))
    }
}

// The bytes of the entries.
fn entry_bytes<'data>(bytes: &'data [u8], header: &CacheHeader) -> Result<&'data [u8], ParseError>
    ensures { ok_map (λ entries. entries.now) result ≡ entry_bytes bytes.now header.now }
{
    get_bytes(bytes, HEADER_SIZE, ENTRY_SIZE * header.nlibs as usize)
}

// The number of sections of the directory of extensions, which has 8 bytes before them.
fn section_count(order: AnyEndian, bytes: &[u8], offset: u32) -> Result<u32, ParseError>
    ensures { result ≡ section_count (any_is_little order) bytes.now offset }
{
    let mut offset = offset as usize;
    if order.parse_u32_at(&mut offset, bytes)? != EXTENSION_MAGIC {
        return Ok(0);
    }
    order.parse_u32_at(&mut offset, bytes)
}

fn section_bytes(order: AnyEndian, bytes: &[u8], offset: u32) -> Result<&[u8], ParseError>
    ensures { ok_map (λ sections. sections.now) result ≡ section_bytes (any_is_little order) bytes.now offset }
{
    let count = section_count(order, bytes, offset)?;
    get_bytes(bytes, offset as usize + 8, SECTION_SIZE * count as usize)
}

fn hwcaps_section(
    sections: &ParsingTable<'_, AnyEndian, ExtensionSection>,
) -> Option<ExtensionSection>
    ensures { result ≡ find has_hwcaps (table_items section_reads (table_view sections.now)) }
{
    sections.iter().find(|section| section.tag == HWCAPS_TAG)
}

fn content_of<'data>(
    bytes: &'data [u8],
    section: Option<ExtensionSection>,
) -> Result<&'data [u8], ParseError>
    ensures { ok_map (λ content. content.now) result ≡ content_of bytes.now section }
{
    match section {
        Some(section) => get_bytes(bytes, section.offset as usize, section.size as usize),
        None => Ok(&[]),
    }
}

// The offsets of the names of subfolders.
fn hwcap_bytes(order: AnyEndian, bytes: &[u8], offset: u32) -> Result<&[u8], ParseError>
    ensures { ok_map (λ offsets. offsets.now) result ≡ hwcap_bytes (any_is_little order) bytes.now offset }
{
    let sections = section_bytes(order, bytes, offset)?;
    let sections = ParsingTable::new(order, Class::ELF64, sections);
    content_of(bytes, hwcaps_section(&sections))
}

// The same, or none if they cannot be read.
fn readable_hwcaps(order: AnyEndian, bytes: &[u8], offset: u32) -> &[u8]
    ensures { result.now ≡ or_empty (hwcap_bytes (any_is_little order) bytes.now offset) }
{
    match hwcap_bytes(order, bytes, offset) {
        Ok(offsets) => offsets,
        Err(_) => &[],
    }
}

/// A cache, which borrows the bytes of its file.
#[derive(Debug, Drop)]
pub struct LinkerCache<'data> {
    strings: TerminatedStrings<'data>,
    /// The entries, in order.
    pub entries: ParsingTable<'data, AnyEndian, CacheEntry>,
    /// The offsets of the names of subfolders of `glibc-hwcaps`, in order; none if the list cannot be read.
    pub hwcaps: ParsingTable<'data, AnyEndian, u32>,
}

impl<'data> LinkerCache<'data> {
    /// Returns the cache that the bytes of a file are. `order` is the byte order of the programs: the linker ignores a
    /// cache of another one, and a cache that names none has this one.
    ///
    /// Errors, in order: `Magic`; of a file that begins with a cache of the older format, `Read` if its number of entries
    /// is cut off, and `OldFormat` if no cache follows; `Read` if the header is cut short; `ByteOrder`; `Read` if the
    /// entries are cut short. Of the file no more is read than these, the directory of extensions, and from its end back
    /// to its last 0 byte.
    pub fn new(order: AnyEndian, file: &'data [u8]) -> Result<Self, CacheError>
        ensures { ok_map cache_view result ≡ cache_of (any_is_little order) file.now }
    {
        let bytes = cache_bytes(order, file)?;
        Self::at_start(order, bytes)
    }

    // The cache that the bytes begin with.
    fn at_start(order: AnyEndian, bytes: &'data [u8]) -> Result<Self, CacheError>
        ensures { ok_map cache_view result ≡ cache_in (any_is_little order) bytes.now }
    {
        let header = checked_header(order, bytes)?;
        let entries = entry_bytes(bytes, &header)?;
        Ok(LinkerCache {
            strings: TerminatedStrings::new(&StringTable::new(bytes)),
            entries: ParsingTable::new(order, Class::ELF64, entries),
            hwcaps: ParsingTable::new(
                order,
                Class::ELF64,
                readable_hwcaps(order, bytes, header.extension_offset),
            ),
        })
    }

    /// Returns the string at an offset, in bytes from the start of the cache, without the 0 byte that ends it: the
    /// name of an entry by its `key`, or its path by its `value`. The errors are those of `StringTable::get_raw`.
    pub fn string(&self, offset: u32) -> Result<&'data [u8], ParseError>
        ensures { ok_map (λ bytes. bytes.now) result ≡ string_at (cache_view self.now).bytes offset }
    {
        self.strings.get_raw(offset as usize)
    }

    fn has_name(&self, name: &[u8], offset: u32) -> bool
        ensures { result ≡ is_name name.now (string_at (cache_view self.now).bytes offset) }
    {
        match self.strings.is(offset as usize, name) {
            Ok(is_name) => is_name,
            Err(_) => false,
        }
    }

    // The name is compared last, since that takes the longest.
    fn lists(
        &self,
        flags: &LibraryFlags,
        place: Option<usize>,
        name: &[u8],
        entry: &CacheEntry,
    ) -> bool
        ensures { result ≡ lists (cache_view self.now).bytes (flags_view flags.now) place name.now entry.now }
    {
        flags.have(entry.flags)
            && is_for(place, entry.hwcap)
            && self.strings.has_string_at(entry.value as usize)
            && self.has_name(name, entry.key)
    }

    /// Returns the path that the cache has for the name of a library: that of the first entry with this name and with
    /// flags that fit, if it can be read. Of the entries for subfolders of `glibc-hwcaps` those for `hwcaps` count, and
    /// come before the others: `hwcaps` are the names of the subfolders, the best first. The time grows with the number
    /// of entries, times the length of the name at most, and times the number of those subfolders that the cache lists.
    pub fn lookup(&self, flags: &LibraryFlags, hwcaps: &[&[u8]], name: &[u8]) -> Option<&'data [u8]>
        ensures { option_map (λ path. path.now) result
            ≡ cached_path (cache_view self.now) (flags_view flags.now) (map (λ hwcap. hwcap.now) hwcaps.now) name.now }
    {
        for hwcap in hwcaps {
            let found = self.path_at(flags, hwcap, name);
            if found.is_some() {
                return found;
            }
        }
        self.path_for(flags, None, name)
    }

    // The path for a subfolder.
    fn path_at(&self, flags: &LibraryFlags, hwcap: &[u8], name: &[u8]) -> Option<&'data [u8]>
        ensures { let cache = cache_view self.now in option_map (λ path. path.now) result
            ≡ path_at cache (flags_view flags.now) (place_in cache hwcap.now) name.now }
    {
        match self.place_of(hwcap) {
            Some(place) => self.path_for(flags, Some(place), name),
            None => None,
        }
    }

    // The path of the first entry that lists the name.
    fn path_for(
        &self,
        flags: &LibraryFlags,
        place: Option<usize>,
        name: &[u8],
    ) -> Option<&'data [u8]>
        ensures { option_map (λ path. path.now) result
            ≡ path_for (cache_view self.now) (flags_view flags.now) place name.now }
    {
        let entry = self.listed(flags, place, name)?;
        self.string(entry.value).ok()
    }

    // The first entry that lists the name.
    fn listed(&self, flags: &LibraryFlags, place: Option<usize>, name: &[u8]) -> Option<CacheEntry>
        ensures { let cache = cache_view self.now in
            result ≡ find (lists cache.bytes (flags_view flags.now) place name.now) (entries_of cache) }
    {
        self.entries
            .iter()
            .find(|entry| self.lists(flags, place, name, entry))
    }

    // The place of a subfolder in the list.
    fn place_of(&self, hwcap: &[u8]) -> Option<usize>
        ensures { result ≡ place_in (cache_view self.now) hwcap.now }
    {
        self.hwcaps
            .iter()
            .position(|offset| self.has_name(hwcap, offset))
    }
}
