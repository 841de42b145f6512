//! The numbers of the kinds of faults. They do not change from one version to the next. `first` and `second` are the
//! two numbers of a fault. Symbols, entries and the like are named by their index, counted from 0.

/// The names of the sections cannot be read.
pub const NO_NAMES: u32 = 1;

/// More than one section has the type `first`, and there is to be one at most.
pub const REPEATED_TYPE: u32 = 2;

/// The name of the section cannot be read.
pub const SECTION_NO_NAME: u32 = 101;

/// The range of the section does not lie in the file, or it has no room for its compression header.
pub const SECTION_NO_BYTES: u32 = 102;

/// The section has a type whose content is read as it lies in the file, and it is compressed.
pub const SECTION_COMPRESSED: u32 = 103;

/// The section holds strings, and its last byte is not 0.
pub const SECTION_NO_LAST_NUL: u32 = 104;

/// The section holds notes. After the last one, at byte `first` of the section, is no note, and the section does not
/// end.
pub const SECTION_NO_NOTE: u32 = 105;

/// Symbols: there is no linked section, or the entry size is not that of a symbol.
pub const SYMBOLS_BAD_LINK: u32 = 201;

/// Symbols: the linked section holds no strings.
pub const SYMBOLS_LINKED_TO_NO_STRINGS: u32 = 202;

/// Symbols: the bytes are not a whole number of them.
pub const PART_OF_SYMBOL: u32 = 203;

/// Symbols: their range or that of their strings does not lie in the file.
pub const NO_SYMBOLS: u32 = 204;

/// The name of symbol `first`, at byte `second` of the strings, cannot be read.
pub const SYMBOL_NO_NAME: u32 = 205;

/// Symbol `first` has the section number `second`, and there is no such section.
pub const SYMBOL_NO_SECTION: u32 = 206;

/// Relocations: the entry size is not that of one.
pub const RELOCATIONS_ENTRY_SIZE: u32 = 301;

/// Relocations: the linked section holds no symbols.
pub const RELOCATIONS_NO_LINK: u32 = 302;

/// Relocations: the bytes are not a whole number of them.
pub const PART_OF_RELOCATION: u32 = 303;

/// Relocation `first` has the symbol `second`, and there is no such symbol.
pub const RELOCATION_NO_SYMBOL: u32 = 304;

/// Hash table: the linked section holds no symbols.
pub const HASH_NOT_LINKED: u32 = 401;

/// Hash table: there is none, or its symbols cannot be read.
pub const HASH_NO_TABLE: u32 = 402;

/// SysV hash table: the chain of bucket `first` has no end.
pub const HASH_ENDLESS: u32 = 403;

/// SysV hash table: the chain of bucket `first` leads to index `second`, which has no chain word.
pub const HASH_PAST_CHAINS: u32 = 404;

/// Hash table: symbol `first`, which is in a chain, or its name, cannot be read.
pub const HASH_UNREADABLE: u32 = 405;

/// SysV hash table: the chain of bucket `first` leads to symbol `second`, which belongs to another bucket.
pub const HASH_WRONG_BUCKET: u32 = 406;

/// GNU hash table: the shift is 32 or more.
pub const HASH_SHIFT_TOO_LARGE: u32 = 407;

/// GNU hash table: the chain word of symbol `first` is not the hash of its name, apart from bit 0.
pub const HASH_WRONG_HASH: u32 = 408;

/// GNU hash table: a bloom bit of the name of symbol `first` is not set, or there are no bloom words.
pub const HASH_NO_BLOOM_BIT: u32 = 409;

/// GNU hash table: the chain word of symbol `first` does not lie in the run of the bucket of its name.
pub const HASH_NOT_IN_RUN: u32 = 410;

/// Dynamic entries: the entry size is not that of one.
pub const DYNAMIC_ENTRY_SIZE: u32 = 501;

/// Dynamic entries: there is no linked section, or it holds no strings.
pub const DYNAMIC_NOT_LINKED: u32 = 502;

/// Dynamic entries: the range of the strings does not lie in the file.
pub const DYNAMIC_NO_STRINGS: u32 = 503;

/// Dynamic entries: the bytes are not a whole number of them.
pub const PART_OF_DYNAMIC_ENTRY: u32 = 504;

/// Dynamic entries: none has the tag `DT_NULL`.
pub const DYNAMIC_NO_NULL: u32 = 505;

/// The string of dynamic entry `first` cannot be read.
pub const DYNAMIC_NO_STRING: u32 = 506;

/// The section of needs or that of their strings cannot be read.
pub const NEEDS_UNREADABLE: u32 = 601;

/// The needs declare more versions than the section has bytes for.
pub const NEEDS_TOO_LONG: u32 = 602;

/// There are only `first` needs, fewer than declared.
pub const NEEDS_SHORT: u32 = 603;

/// There are more needs than declared.
pub const NEEDS_NOT_LAST: u32 = 604;

/// A name or a version of need `first` cannot be read.
pub const NEED_UNREADABLE: u32 = 605;

/// The section of definitions or that of their strings cannot be read.
pub const DEFINITIONS_UNREADABLE: u32 = 606;

/// The definitions declare more names than the section has bytes for.
pub const DEFINITIONS_TOO_LONG: u32 = 607;

/// There are only `first` definitions, fewer than declared.
pub const DEFINITIONS_SHORT: u32 = 608;

/// There are more definitions than declared.
pub const DEFINITIONS_NOT_LAST: u32 = 609;

/// A name of definition `first` cannot be read.
pub const DEFINITION_UNREADABLE: u32 = 610;

/// The bytes are not a whole number of version indexes.
pub const PART_OF_VERSION_INDEX: u32 = 611;

/// The version indexes cannot be read.
pub const VERSION_INDEXES_UNREADABLE: u32 = 612;

/// There are version indexes, and no dynamic symbols.
pub const NO_DYNAMIC_SYMBOLS: u32 = 613;

/// There are not as many version indexes as symbols.
pub const COUNT_OF_VERSION_INDEXES: u32 = 614;

/// Symbol `first` has an index that is that of no version.
pub const UNKNOWN_VERSION_INDEX: u32 = 615;

/// The index of symbol `first` is that of a definition and of a need.
pub const AMBIGUOUS_VERSION_INDEX: u32 = 616;

/// The segment is a second one of type `PT_INTERP`; `first` is the earlier one.
pub const SECOND_INTERP: u32 = 701;

/// The segment is a second one of type `PT_DYNAMIC`; `first` is the earlier one.
pub const SECOND_DYNAMIC: u32 = 702;

/// The segment is a second one of type `PT_PHDR`; `first` is the earlier one.
pub const SECOND_PHDR: u32 = 703;

/// The segment is a second one of type `PT_TLS`; `first` is the earlier one.
pub const SECOND_TLS: u32 = 704;

/// The segment, of type `PT_PHDR`, comes after segment `first` of type `PT_LOAD`.
pub const PHDR_AFTER_LOAD: u32 = 705;

/// The segment, of type `PT_LOAD`, begins before segment `first` of this type ends.
pub const OVERLAPPING_LOAD: u32 = 706;

/// The bytes of the segment, of type `first`, do not lie in the file.
pub const SEGMENT_NO_BYTES: u32 = 801;

/// The segment, of type `first`, has more bytes in the file than in memory.
pub const SEGMENT_FILE_SIZE: u32 = 802;

/// The segment, of type `first`, ends past the last address of the file's class.
pub const SEGMENT_PAST_ADDRESSES: u32 = 803;

/// The last byte of the segment, of type `first`, is not 0, or there is none.
pub const SEGMENT_NO_LAST_NUL: u32 = 804;

/// The segment, of type `first`, holds notes. After the last one, at byte `second` of the segment, is none, and the
/// segment does not end.
pub const SEGMENT_NO_NOTE: u32 = 805;

/// The bytes of the segment, of type `first`, are not a whole number of dynamic entries.
pub const SEGMENT_PART_OF_ENTRY: u32 = 806;

/// No dynamic entry of the segment, of type `first`, has the tag `DT_NULL`.
pub const SEGMENT_NO_NULL: u32 = 807;

/// The first section of type `SHT_DYNAMIC` has other bytes than the segment, of type `first`.
pub const SEGMENT_OTHER_SECTION: u32 = 808;
