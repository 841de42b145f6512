//! The calls of a listing.

/// A request to a reader of a file. Sections and segments are given by their index, counted from 0.
#[derive(Clone, Copy, Debug, PartialEq, Eq)]
pub enum Call<'a> {
    /// The file header, in one line.
    Header,
    /// The section headers with their names, a line each.
    Sections,
    /// The program headers, a line each.
    Segments,
    /// The first section of this name.
    Name(&'a str),
    /// The bytes of a section, without its compression header, whose fields come after them.
    Data(u64),
    /// The strings of a section, in order, each with its offset in bytes.
    Strings(u64),
    /// The relocations of a section, without addends.
    Rels(u64),
    /// The relocations of a section, with addends.
    Relas(u64),
    /// The notes of a section.
    Notes(u64),
    /// The bytes of a segment.
    Seg(u64),
    /// The notes of a segment.
    SegNotes(u64),
    /// The symbols of the first symbol table.
    Symbols,
    /// The symbols of the first table for dynamic linking.
    DynSyms,
    /// The dynamic entries.
    Dynamic,
    /// The versions of the dynamic symbols: which is needed, and which is defined.
    Versions,
    /// Whether a section is sound as a SysV hash section, for the dynamic symbols.
    Sysv(u64),
    /// Whether a section is sound as a GNU hash section, for the dynamic symbols.
    Gnu(u64),
}
