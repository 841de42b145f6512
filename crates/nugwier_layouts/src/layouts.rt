//! The layouts of records: the name of each in an object of JSON, and the columns of its row for people. Rows of `list` of
//! files whose addresses have at most 32 bits are made for 80 characters a line.

use crate::text::Column;
use crate::text::Shown::{
    Addend, Address, Character, Count, Decimal, Depth, Digits, Digits8, Dump, Flags, Front,
    Hexadecimal, Index, Name, Order, Padded, Pairs, Percent, Room, SectionFlags, SegmentFlags,
    ShortAddress, ShortRoom, Signed, Target, Text, Version,
};

/// The name of records in an object of JSON, whether they are headings, which may be bold, the columns of the row for
/// people, and the text after the last one. Records without a name, as headings, are for people alone.
pub type Layout = (Option<&'static str>, bool, &'static [Column], &'static str);

/// The heading of a file: its path.
pub static FILE_HEADING: Layout = (None, true, &[("", 0, Text)], ":\n");

/// The heading of a file that follows another one.
pub static NEXT_FILE_HEADING: Layout = (None, true, &[("\n", 0, Text)], ":\n");

/// The file header (gABI, chapter "ELF Header").
pub static FILE_HEADER: Layout = (
    Some("file_header"),
    false,
    &[
        ("File header:\n  class                ELF", 1, Name(8, 0, 0)),
        ("\n  byte order           ", 3, Name(0, 0, 2)),
        (" (", 2, Order),
        (")\n  ABI                  ", 5, Name(0, 0, 4)),
        (", version ", 6, Decimal(0)),
        ("\n  type                 ", 8, Name(0, 0, 7)),
        ("\n  kind                 ", 23, Name(0, 0, 23)),
        ("\n  machine              ", 10, Name(0, 0, 9)),
        ("\n  version              ", 11, Decimal(0)),
        ("\n  entry point          ", 12, Hexadecimal),
        ("\n  flags                ", 15, Hexadecimal),
        ("", 16, Flags(0)),
        ("\n  header size          ", 17, Decimal(0)),
        (" bytes\n  program headers      ", 19, Decimal(0)),
        (" of ", 18, Decimal(0)),
        (" bytes, at offset ", 13, Decimal(0)),
        ("\n  section headers      ", 21, Decimal(0)),
        (" of ", 20, Decimal(0)),
        (" bytes, at offset ", 14, Decimal(0)),
        ("\n  names of sections    section ", 22, Decimal(0)),
    ],
    "\n",
);

/// The heading of the sections.
pub static SECTIONS_HEADING: Layout = (
    None,
    true,
    &[
        ("Sections, ", 0, Decimal(0)),
        (
            " in all (es: size of an entry, lk: link, inf: info, al: alignment;\n\
            flags: W write, A alloc, X execute, M merge, S strings, I info, L link order,\n\
            O of a system, G group, T thread, C compressed, R retain, l large, E exclude):\n \
            nr name               type        address ",
            0,
            ShortRoom,
        ),
    ],
    " offset   size     es lk inf al flags\n",
);

/// A section (gABI, chapter "Sections").
pub static SECTION: Layout = (
    Some("section_header"),
    false,
    &[
        ("", 0, Decimal(3)),
        (" ", 2, Padded(18)),
        (" ", 4, Name(4, 11, 3)),
        (" ", 7, ShortAddress),
        (" ", 8, Digits8),
        (" ", 9, Digits8),
        (" ", 13, Decimal(2)),
        (" ", 10, Decimal(2)),
        (" ", 11, Decimal(3)),
        (" ", 12, Decimal(2)),
        (" ", 5, SectionFlags),
    ],
    "\n",
);

// The names of flags without `GRP_`.
/// A section group (gABI, chapter "Sections", "Section Groups"); its members follow.
pub static GROUP: Layout = (
    Some("group"),
    false,
    &[
        ("Group of section ", 0, Decimal(0)),
        (" (", 1, Text),
        ("): signature ", 4, Text),
        (", flags ", 2, Hexadecimal),
        ("", 3, Flags(4)),
    ],
    "\n",
);

/// A section of a group.
pub static GROUP_MEMBER: Layout = (
    Some("group_member"),
    false,
    &[("", 2, Decimal(6)), (" ", 3, Text)],
    "\n",
);

/// The heading of the segments.
pub static SEGMENTS_HEADING: Layout = (
    None,
    true,
    &[
        ("Segments, ", 0, Decimal(0)),
        (
            " in all:\n nr type           offset   address ",
            0,
            ShortRoom,
        ),
        (" physical", 0, ShortRoom),
    ],
    " file size memory   flags align\n",
);

/// A segment (gABI, chapter "Program Header").
pub static SEGMENT: Layout = (
    Some("program_header"),
    false,
    &[
        ("", 0, Decimal(3)),
        (" ", 2, Name(3, 14, 1)),
        (" ", 5, Digits8),
        (" ", 6, ShortAddress),
        (" ", 7, ShortAddress),
        (" ", 8, Digits8),
        ("  ", 9, Digits8),
        (" ", 3, SegmentFlags),
        ("   ", 10, Hexadecimal),
    ],
    "\n",
);

/// The path of the program that loads the file.
pub static INTERPRETER: Layout = (
    Some("interpreter"),
    false,
    &[("Interpreter of segment ", 0, Decimal(0)), (": ", 1, Text)],
    "\n",
);

/// The heading of the sections of the segments.
pub static SEGMENT_SECTIONS_HEADING: Layout = (None, true, &[], "Sections of the segments:\n");

/// A segment, by its number; its sections follow.
pub static SEGMENT_SECTIONS: Layout = (None, false, &[("", 0, Decimal(4))], "");

/// A section of a segment.
pub static SEGMENT_SECTION: Layout = (Some("segment_section"), false, &[(" ", 2, Text)], "");

/// The end of the sections of a segment.
pub static SEGMENT_SECTIONS_END: Layout = (None, false, &[], "\n");

/// The heading of the symbols.
pub static SYMBOLS_HEADING: Layout = (
    None,
    true,
    &[
        ("Symbols, ", 0, Decimal(0)),
        (" in all:\n    nr value   ", 0, ShortRoom),
    ],
    "   size type      binding    vis       section name\n",
);

/// The heading of the dynamic symbols.
pub static DYNAMIC_SYMBOLS_HEADING: Layout = (
    None,
    true,
    &[
        ("Symbols for dynamic linking, ", 0, Decimal(0)),
        (" in all:\n    nr value   ", 0, ShortRoom),
    ],
    "   size type      binding    vis       section name\n",
);

/// A symbol with all its fields (gABI, chapter "Symbol Table").
pub static SYMBOL: Layout = (
    Some("symbol"),
    false,
    &[
        ("", 1, Decimal(6)),
        (" ", 14, ShortAddress),
        (" ", 15, Decimal(6)),
        (" ", 8, Name(4, 9, 7)),
        (" ", 6, Name(4, 10, 5)),
        (" ", 11, Name(4, 9, 10)),
        (" ", 13, Index(7, 12)),
        (" ", 3, Text),
        ("", 16, Version(17)),
    ],
    "\n",
);

/// A symbol by its value and a letter.
pub static VALUED_SYMBOL: Layout = (
    Some("symbol"),
    false,
    &[
        ("", 14, Address),
        (" ", 18, Character),
        (" ", 3, Text),
        ("", 16, Version(17)),
    ],
    "\n",
);

/// A symbol by its size and a letter.
pub static SIZED_SYMBOL: Layout = (
    Some("symbol"),
    false,
    &[
        ("", 15, Address),
        (" ", 18, Character),
        (" ", 3, Text),
        ("", 16, Version(17)),
    ],
    "\n",
);

/// A symbol by its value, its size and a letter.
pub static VALUED_AND_SIZED_SYMBOL: Layout = (
    Some("symbol"),
    false,
    &[
        ("", 14, Address),
        (" ", 15, Address),
        (" ", 18, Character),
        (" ", 3, Text),
        ("", 16, Version(17)),
    ],
    "\n",
);

/// An undefined symbol by a letter.
pub static UNDEFINED_SYMBOL: Layout = (
    Some("symbol"),
    false,
    &[
        ("        ", 0, Room),
        (" ", 18, Character),
        (" ", 3, Text),
        ("", 16, Version(17)),
    ],
    "\n",
);

/// A symbol in the form of POSIX: its name, a letter and its value.
pub static PORTABLE: Layout = (
    Some("symbol"),
    false,
    &[
        ("", 3, Text),
        ("", 16, Version(17)),
        (" ", 18, Character),
        (" ", 14, Digits),
    ],
    "\n",
);

/// The same with its size.
pub static PORTABLE_SIZED: Layout = (
    Some("symbol"),
    false,
    &[
        ("", 3, Text),
        ("", 16, Version(17)),
        (" ", 18, Character),
        (" ", 14, Digits),
        (" ", 15, Digits),
    ],
    "\n",
);

/// An undefined symbol in this form.
pub static PORTABLE_UNDEFINED: Layout = (
    Some("symbol"),
    false,
    &[("", 3, Text), ("", 16, Version(17)), (" ", 18, Character)],
    "\n",
);

/// A symbol by its name and its version.
pub static EXPORT: Layout = (
    Some("symbol"),
    false,
    &[("", 3, Text), ("", 16, Version(17))],
    "\n",
);

/// The heading of the dynamic entries.
pub static ENTRIES_HEADING: Layout = (
    None,
    true,
    &[("Dynamic entries, ", 0, Decimal(0))],
    " in all:\n  nr tag               value, string\n",
);

/// A dynamic entry (gABI, chapter "Dynamic Section").
pub static ENTRY: Layout = (
    Some("dynamic"),
    false,
    &[
        ("", 0, Decimal(4)),
        (" ", 2, Name(3, 17, 1)),
        (" ", 3, Hexadecimal),
    ],
    "\n",
);

/// A dynamic entry that names a string.
pub static NAMED_ENTRY: Layout = (
    Some("dynamic"),
    false,
    &[
        ("", 0, Decimal(4)),
        (" ", 2, Name(3, 17, 1)),
        (" ", 3, Hexadecimal),
        ("  ", 5, Text),
    ],
    "\n",
);

// The names of flags without `DF_`.
/// The dynamic entry `DT_FLAGS`.
pub static FLAGS_ENTRY: Layout = (
    Some("dynamic"),
    false,
    &[
        ("", 0, Decimal(4)),
        (" ", 2, Name(3, 17, 1)),
        (" ", 3, Hexadecimal),
        ("", 4, Flags(3)),
    ],
    "\n",
);

// The names of flags without `DF_1_`.
/// The dynamic entry `DT_FLAGS_1`.
pub static FLAGS_1_ENTRY: Layout = (
    Some("dynamic"),
    false,
    &[
        ("", 0, Decimal(4)),
        (" ", 2, Name(3, 17, 1)),
        (" ", 3, Hexadecimal),
        ("", 4, Flags(5)),
    ],
    "\n",
);

/// A needed library.
pub static NEEDED: Layout = (Some("dynamic"), false, &[("needed  ", 5, Text)], "\n");

/// The name of the file itself.
pub static SONAME: Layout = (Some("dynamic"), false, &[("soname  ", 5, Text)], "\n");

/// A search path, of `DT_RPATH`.
pub static RPATH: Layout = (Some("dynamic"), false, &[("rpath   ", 5, Text)], "\n");

/// A search path, of `DT_RUNPATH`.
pub static RUNPATH: Layout = (Some("dynamic"), false, &[("runpath ", 5, Text)], "\n");

/// The heading of the relocations of a section: its number and its name.
pub static RELOCATIONS_HEADING: Layout = (
    None,
    true,
    &[
        ("Relocations of section ", 0, Decimal(0)),
        (" (", 1, Text),
        (")", 2, Count),
        (":\n    nr offset  ", 0, ShortRoom),
    ],
    " type                   symbol, addend\n",
);

/// A relocation (gABI, chapter "Relocation").
pub static RELOCATION: Layout = (
    Some("relocation"),
    false,
    &[
        ("", 1, Decimal(6)),
        (" ", 2, ShortAddress),
        (" ", 8, Name(0, 22, 7)),
        (" ", 4, Text),
        ("", 5, Version(6)),
        ("", 9, Addend(3)),
    ],
    "\n",
);

/// A relocation of a 64-bit file of MIPS, which has three types.
pub static MIPS_RELOCATION: Layout = (
    Some("relocation"),
    false,
    &[
        ("", 1, Decimal(6)),
        (" ", 2, ShortAddress),
        (" ", 8, Name(0, 0, 7)),
        ("/", 13, Name(0, 0, 12)),
        ("/", 15, Name(0, 0, 14)),
        (" ", 4, Text),
        ("", 5, Version(6)),
        ("", 9, Addend(3)),
    ],
    "\n",
);

/// A packed relative relocation (gABI, chapter "Relocation", `SHT_RELR`).
pub static RELATIVE: Layout = (
    Some("relative_relocation"),
    false,
    &[("       ", 1, ShortAddress)],
    "\n",
);

/// The heading of relocations that a dynamic entry gives: its tag.
pub static RELOCATION_TABLE_HEADING: Layout = (
    None,
    true,
    &[
        ("Relocations of ", 0, Text),
        ("", 1, Count),
        (":\n    nr offset  ", 0, ShortRoom),
    ],
    " type                   symbol, addend\n",
);

/// The heading of the notes of a section: its number and its name.
pub static SECTION_NOTES_HEADING: Layout = (
    None,
    true,
    &[
        ("Notes of section ", 0, Decimal(0)),
        (" (", 1, Text),
        (")", 2, Count),
    ],
    ":\n",
);

/// The heading of the notes of a segment: its number.
pub static SEGMENT_NOTES_HEADING: Layout = (
    None,
    true,
    &[("Notes of segment ", 0, Decimal(0)), ("", 1, Count)],
    ":\n",
);

/// A note with the build id.
pub static BUILD_ID_NOTE: Layout = (Some("note"), false, &[("  GNU build id  ", 5, Pairs)], "\n");

/// A note with the ABI that a file needs.
pub static ABI_TAG_NOTE: Layout = (
    Some("note"),
    false,
    &[
        ("  GNU ABI tag   ", 6, Name(0, 0, 5)),
        (" ", 7, Decimal(0)),
        (".", 8, Decimal(0)),
        (".", 9, Decimal(0)),
    ],
    "\n",
);

/// Any other note (gABI, chapter "Program Loading", "Note Section").
pub static NOTE: Layout = (
    Some("note"),
    false,
    &[
        ("  ", 4, Text),
        (" ", 3, Name(0, 0, 2)),
        ("  ", 5, Front(16)),
    ],
    "\n",
);

// The names of properties without `GNU_PROPERTY_`.
/// A property of code, whose data are a number.
pub static NUMBER_PROPERTY: Layout = (
    Some("note_property"),
    false,
    &[
        ("    ", 3, Name(13, 0, 2)),
        (" ", 5, Hexadecimal),
        ("", 6, Flags(0)),
    ],
    "\n",
);

/// Another property of code.
pub static PROPERTY: Layout = (
    Some("note_property"),
    false,
    &[("    ", 3, Name(13, 0, 2)), (", ", 4, Decimal(0))],
    " bytes\n",
);

/// The text of a note.
pub static NOTE_TEXT: Layout = (Some("note_text"), false, &[("    ", 2, Text)], "\n");

/// A probe of SystemTap.
pub static PROBE: Layout = (
    Some("note_probe"),
    false,
    &[
        ("    ", 2, Text),
        (":", 3, Text),
        ("  at ", 5, Hexadecimal),
        (" of ", 6, Hexadecimal),
        (", semaphore ", 7, Hexadecimal),
        ("  ", 4, Text),
    ],
    "\n",
);

/// The files that a process had mapped: their number, and the size of a page.
pub static MAPPED_FILES: Layout = (
    Some("note_files"),
    false,
    &[
        ("    mapped files: ", 2, Decimal(0)),
        (", page size ", 3, Decimal(0)),
    ],
    "\n",
);

/// A file that a process had mapped.
pub static MAPPED_FILE: Layout = (
    Some("note_file"),
    false,
    &[
        ("    ", 2, Address),
        ("-", 3, Address),
        (" page ", 4, Hexadecimal),
        ("  ", 5, Text),
    ],
    "\n",
);

/// The signal and the number of a thread.
pub static PROCESS_STATUS: Layout = (
    Some("note_prstatus"),
    false,
    &[
        ("    process ", 3, Decimal(0)),
        (", signal ", 2, Decimal(0)),
    ],
    "\n",
);

/// The name and the arguments of a process.
pub static PROCESS_INFO: Layout = (
    Some("note_prpsinfo"),
    false,
    &[("    program ", 2, Text), (", arguments ", 3, Text)],
    "\n",
);

/// The signal that ended a process.
pub static SIGNAL_INFO: Layout = (
    Some("note_siginfo"),
    false,
    &[
        ("    signal ", 2, Signed),
        (", code ", 3, Signed),
        (", error ", 4, Signed),
    ],
    "\n",
);

// The names of entries without `AT_`.
/// An entry of the auxiliary vector of a process.
pub static AUXILIARY_ENTRY: Layout = (
    Some("note_auxv"),
    false,
    &[("    ", 3, Name(3, 17, 2)), (" ", 4, Hexadecimal)],
    "\n",
);

/// The heading of the versions that a file defines: the number and the name of their section.
pub static DEFINED_HEADING: Layout = (
    None,
    true,
    &[
        ("Versions defined, of section ", 0, Decimal(0)),
        (" (", 1, Text),
        (")", 2, Count),
    ],
    ":\n",
);

/// The heading of the versions that a file needs: the number and the name of their section.
pub static NEEDED_HEADING: Layout = (
    None,
    true,
    &[
        ("Files with needed versions, of section ", 0, Decimal(0)),
        (" (", 1, Text),
        (")", 2, Count),
    ],
    ":\n",
);

/// The heading of the versions that a file defines, whose address a dynamic entry gives.
pub static DEFINED_TABLE_HEADING: Layout = (None, true, &[], "Versions defined, of DT_VERDEF:\n");

/// The heading of the versions that a file needs, whose address a dynamic entry gives.
pub static NEEDED_TABLE_HEADING: Layout = (
    None,
    true,
    &[],
    "Files with needed versions, of DT_VERNEED:\n",
);

// The names of flags without `VER_FLG_`.
/// A version that a file defines; its names follow (GNU symbol versioning).
pub static VERDEF: Layout = (
    Some("verdef"),
    false,
    &[
        ("  ", 3, Decimal(5)),
        (" flags ", 1, Hexadecimal),
        ("", 2, Flags(8)),
    ],
    " ",
);

/// A name of a version that a file defines.
pub static VERDAUX: Layout = (Some("verdaux"), false, &[(" ", 3, Text)], "");

/// The end of the names of a version.
pub static VERDEF_END: Layout = (None, false, &[], "\n");

/// A file from which versions are needed.
pub static VERNEED: Layout = (Some("verneed"), false, &[("  of ", 3, Text)], "\n");

/// A version that is needed.
pub static VERNAUX: Layout = (
    Some("vernaux"),
    false,
    &[
        ("  ", 5, Decimal(5)),
        (" flags ", 3, Hexadecimal),
        ("", 4, Flags(8)),
        ("  ", 7, Text),
    ],
    "\n",
);

/// The heading of the chains of a hash section: its number, its name and the number of its buckets.
pub static CHAINS_HEADING: Layout = (
    None,
    true,
    &[
        ("Buckets of hash section ", 0, Decimal(0)),
        (" (", 1, Text),
        (") by the length of their chains, ", 2, Decimal(0)),
    ],
    " in all:\n  length   buckets   share  coverage\n",
);

/// The heading of the chains of a hash table, by the dynamic entry that gives its address.
pub static CHAINS_TABLE_HEADING: Layout = (
    None,
    true,
    &[
        ("Buckets of ", 0, Text),
        (" by the length of their chains, ", 1, Decimal(0)),
    ],
    " in all:\n  length   buckets   share  coverage\n",
);

/// How many buckets of a hash section have a chain of a length.
pub static CHAIN_LENGTH: Layout = (
    Some("chain_length"),
    false,
    &[
        ("", 1, Decimal(8)),
        (" ", 2, Decimal(9)),
        ("  ", 2, Percent(3)),
        ("    ", 4, Percent(5)),
    ],
    "\n",
);

/// The heading of the build attributes of a section: its number and its name.
pub static ATTRIBUTES_HEADING: Layout = (
    None,
    true,
    &[
        ("Build attributes of section ", 0, Decimal(0)),
        (" (", 1, Text),
    ],
    "):\n",
);

// The names of tags without `Tag_`.
/// What build attributes are of: the file, sections or symbols; they follow.
pub static ATTRIBUTE_SCOPE: Layout = (
    Some("attribute_scope"),
    false,
    &[("  ", 3, Name(4, 0, 2)), (" attributes of ", 1, Text)],
    "\n",
);

/// The number of a section or of a symbol that they are of.
pub static ATTRIBUTE_TARGET: Layout = (
    Some("attribute_target"),
    false,
    &[("    for ", 4, Decimal(0))],
    "\n",
);

/// A build attribute with a number.
pub static NUMBER_ATTRIBUTE: Layout = (
    Some("attribute"),
    false,
    &[("    ", 5, Name(4, 27, 4)), ("  ", 6, Decimal(0))],
    "\n",
);

/// A build attribute with a number that has a name.
pub static NAMED_ATTRIBUTE: Layout = (
    Some("attribute"),
    false,
    &[("    ", 5, Name(4, 27, 4)), ("  ", 7, Name(0, 0, 6))],
    "\n",
);

/// A build attribute with a text.
pub static TEXT_ATTRIBUTE: Layout = (
    Some("attribute"),
    false,
    &[("    ", 5, Name(4, 27, 4)), ("  ", 8, Text)],
    "\n",
);

/// A build attribute with a number and a text.
pub static PAIR_ATTRIBUTE: Layout = (
    Some("attribute"),
    false,
    &[
        ("    ", 5, Name(4, 27, 4)),
        ("  ", 6, Decimal(0)),
        (", ", 8, Text),
    ],
    "\n",
);

/// The build attributes of a vendor whose form is not known.
pub static VENDOR_ATTRIBUTES: Layout = (
    Some("vendor_attributes"),
    false,
    &[
        ("  attributes of ", 1, Text),
        (", of a form of its own: ", 2, Front(16)),
    ],
    "\n",
);

/// The heading of a link to a file with debug information: the number and the name of its section.
pub static DEBUG_LINK_HEADING: Layout = (
    None,
    true,
    &[("Debug link of section ", 0, Decimal(0)), (" (", 1, Text)],
    "):\n",
);

/// A link to a file with debug information, with the checksum of the file.
pub static DEBUG_LINK: Layout = (
    Some("debug_link"),
    false,
    &[("  ", 1, Text), ("  CRC 0x", 2, Digits8)],
    "\n",
);

/// The same to a file that several files share, with the build ID of the file.
pub static DEBUG_ALT_LINK: Layout = (
    Some("debug_alt_link"),
    false,
    &[("  ", 1, Text), ("  build id ", 2, Pairs)],
    "\n",
);

/// The heading of the bytes of a section: its number and its name.
pub static BYTES_HEADING: Layout = (
    None,
    true,
    &[("Bytes of section ", 0, Decimal(0)), (" (", 1, Text)],
    "):\n",
);

/// The heading of the strings of a section.
pub static STRINGS_HEADING: Layout = (
    None,
    true,
    &[("Strings of section ", 0, Decimal(0)), (" (", 1, Text)],
    "):\n",
);

/// That a section has no bytes in the file.
pub static NO_BYTES: Layout = (None, false, &[], "  none in the file\n");

/// That a section is empty.
pub static EMPTY_SECTION: Layout = (None, false, &[], "  none, the section is empty\n");

/// How the bytes of a section are compressed (gABI, chapter "Sections", "Section Compression").
pub static COMPRESSION: Layout = (
    Some("compression"),
    false,
    &[
        ("  compressed: ", 2, Name(0, 0, 1)),
        (", ", 3, Decimal(0)),
        (" bytes, alignment ", 4, Decimal(0)),
    ],
    "\n",
);

/// The bytes of a section.
pub static SECTION_DATA: Layout = (Some("section_data"), false, &[("", 2, Dump(1))], "");

/// A string of a section, with its offset.
pub static SECTION_STRING: Layout = (
    Some("section_string"),
    false,
    &[("  [", 1, Digits8), ("]  ", 2, Text)],
    "\n",
);

/// The heading of the mappings of a file.
pub static MAPPINGS_HEADING: Layout = (
    None,
    true,
    &[("address   ", 0, Room)],
    " memory     bytes of the file      flags\n",
);

/// A part of memory that a loader maps.
pub static MAPPING: Layout = (
    Some("mapping"),
    false,
    &[
        ("0x", 0, Address),
        (" 0x", 1, Digits8),
        (" 0x", 3, Digits8),
        (" at 0x", 2, Digits8),
        (" ", 4, SegmentFlags),
    ],
    "\n",
);

/// The build id of a file.
pub static BUILD_ID: Layout = (Some("build_id"), false, &[("", 0, Pairs)], "\n");

/// An address in a symbol.
pub static INSIDE: Layout = (
    Some("address"),
    false,
    &[("", 0, Hexadecimal), (" ", 2, Text), ("+", 3, Hexadecimal)],
    "\n",
);

/// An address past the end of the last symbol before it.
pub static PAST_END: Layout = (
    Some("address"),
    false,
    &[("", 0, Hexadecimal), (" ", 2, Text), ("+", 3, Hexadecimal)],
    " past its end\n",
);

/// The path of a file that is sound.
pub static SOUND_FILE: Layout = (None, false, &[("", 0, Text)], ": sound\n");

/// That a file is sound, or one of its faults. For people a fault is a problem alone.
pub static VERDICT: Layout = (Some("check"), false, &[], "");

/// How a file is hardened, for people, with its path.
pub static HARDENED_FILE: Layout = (
    None,
    false,
    &[
        ("", 0, Text),
        (": ", 1, Name(0, 13, 1)),
        ("  relro ", 2, Name(0, 7, 2)),
        ("  ", 3, Name(0, 4, 3)),
        ("  stack ", 4, Name(0, 10, 4)),
        ("  wx ", 5, Decimal(0)),
        ("  ", 6, Name(0, 9, 6)),
        ("  fortified ", 7, Decimal(0)),
        ("  fortifiable ", 8, Decimal(0)),
        ("  rpath ", 9, Text),
        ("  runpath ", 10, Text),
        ("", 11, Name(0, 0, 11)),
        ("", 12, Flags(0)),
        ("", 13, Name(0, 0, 13)),
    ],
    "\n",
);

/// How a file is hardened. For people there is a row of its own.
pub static HARDENING: Layout = (Some("hardening"), false, &[], "");

/// A program, by its path.
pub static PROGRAM: Layout = (
    Some("object"),
    false,
    &[("", 0, Depth), ("", 2, Text)],
    "\n",
);

/// A library that was found.
pub static LIBRARY: Layout = (
    Some("object"),
    false,
    &[("", 0, Depth), ("", 1, Text), (" => ", 2, Text)],
    "\n",
);

/// A library that was not found.
pub static MISSING_LIBRARY: Layout = (
    Some("object"),
    false,
    &[("", 0, Depth), ("", 1, Text)],
    " => not found\n",
);

/// References to a symbol, and the symbol that they bind to.
pub static BOUND: Layout = (
    Some("binding"),
    false,
    &[
        ("", 2, Text),
        ("", 3, Version(5)),
        (" => ", 6, Text),
        ("", 8, Target(2, 3, 9)),
    ],
    "\n",
);

/// The same for the address of a function whose calls go elsewhere.
pub static BOUND_ADDRESS: Layout = (
    Some("binding"),
    false,
    &[
        ("", 2, Text),
        ("", 3, Version(5)),
        (" => ", 6, Text),
        ("", 8, Target(2, 3, 9)),
    ],
    " (address)\n",
);

/// References to a symbol that bind to none, and why.
pub static UNBOUND: Layout = (
    Some("binding"),
    false,
    &[
        ("", 2, Text),
        ("", 3, Version(5)),
        (" => ", 5, Name(0, 0, 5)),
    ],
    "\n",
);

/// The same for the address of a function whose calls go elsewhere.
pub static UNBOUND_ADDRESS: Layout = (
    Some("binding"),
    false,
    &[
        ("", 2, Text),
        ("", 3, Version(5)),
        (" => ", 5, Name(0, 0, 5)),
    ],
    " (address)\n",
);

/// The address of a function whose calls go to the same place. People are told once.
pub static SAME_ADDRESS: Layout = (Some("binding"), false, &[], "");
