//! What listings of the small files are to write.

/// The header line of the header that declares no tables.
pub(crate) const HEADER_LINE: &str =
    "header class=64 order=little version=1 osabi=0 abiversion=0 type=2 machine=62 entry=0x401000 phoff=0 shoff=0 \
    flags=0x0 ehsize=64 phentsize=0 phnum=0 shentsize=0 shnum=0 shstrndx=0\n";

/// The lines of the two sections.
pub(crate) const TWO_SECTION_LINES: &str =
    "section 0 name= nameoff=0 type=0 flags=0x0 addr=0x0 offset=0 size=0 link=0 info=0 align=0 entsize=0\n\
    section 1 name=.s nameoff=1 type=3 flags=0x0 addr=0x0 offset=52 size=4 link=0 info=0 align=1 entsize=0\nend 2\n";

/// The line that says how the program is called.
pub(crate) const USAGE_LINE: &str = "usage: elfshow bytes|stream|both FILE CALL...\n";
