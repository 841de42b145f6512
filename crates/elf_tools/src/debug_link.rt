//! The links of a file to the files that have its debug information (GDB manual, section "Debugging Information in
//! Separate Files").
ghost use Rattle.std.specs.Prelude.{◌≡◌};
ghost use Rattle.std.specs.Int.{next_multiple_of};
ghost use Rattle.elf_records.specs.Number.{ok_map};
ghost use Rattle.elf_tools.specs.DebugLink.{alt_link_view, crc_at, debug_alt_link, debug_link, link_view};

use elf::endian::EndianParse;
use elf_records::string_table::first_nul;
use std::fmt;
use thiserror::Error;

/// Why a link cannot be read.
#[derive(Debug, Clone, Copy, PartialEq, Eq, Drop, Error)]
pub enum DebugLinkError {
    /// No zero byte ends the name of the file.
    EndlessName,
    /// The section ends before the checksum, or within it.
    NoChecksum,
}

impl fmt::Display for DebugLinkError {
    ghost use Rattle.std.specs.Prelude.{Some};
    ghost use Rattle.elf_tools.specs.DebugLink.{error_text};

    ghost output = { λ error. Some (error_text error) };

    fn fmt<W: fmt::Write>(&self, f: &mut fmt::Formatter<W>) -> fmt::Result {
        match *self {
            DebugLinkError::EndlessName => {
                f.write_str("the file name of a debug link does not end")
            }
            DebugLinkError::NoChecksum => f.write_str("no room for the checksum of a debug link"),
        }
    }
}

/// A link to a file with debug information.
#[derive(Debug, Clone, Copy)]
pub struct DebugLink<'a> {
    /// The name of the file, without its zero byte.
    pub name: &'a [u8],
    /// The CRC-32 of all bytes of the file.
    pub crc: u32,
}

/// A link to a file with debug information that several files share, as `dwz` makes it.
#[derive(Debug, Clone, Copy)]
pub struct DebugAltLink<'a> {
    /// The path of the file, without its zero byte.
    pub name: &'a [u8],
    /// The build ID of the file.
    pub build_id: &'a [u8],
}

/// Reads the link of a section `.gnu_debuglink`: a name, a zero byte, up to three bytes of any value, and the checksum
/// from the next multiple of four bytes on. Bytes after the checksum do not count.
///
/// Errors, in order: `EndlessName` if no byte is zero; `NoChecksum` if there are not four bytes for the checksum.
///
/// ```rust
/// let link = debug_link(LittleEndian, b"a.debug\0\x78\x56\x34\x12")?;
/// println!(rt; "{} 0x{:08x}", link.name.len(), link.crc)?; // 7 0x12345678
/// ```
pub fn debug_link<E: EndianParse>(order: E, section: &[u8]) -> Result<DebugLink<'_>, DebugLinkError>
    ensures { ok_map link_view result ≡ debug_link (E.little order) section.now }
{
    let Some(end) = first_nul(section) else {
        return Err(DebugLinkError::EndlessName);
    };
    let name = &section[..end];
    let crc = crc_at(order, section, (end + 1).next_multiple_of(4))?;
    Ok(DebugLink { name, crc })
}

/// Reads the link of a section `.gnu_debugaltlink`: a path, a zero byte, and the build ID up to the end.
///
/// Errors: `EndlessName` if no byte is zero.
///
/// ```rust
/// let link = debug_alt_link(b"/usr/lib/debug/.dwz/a.debug\0\xd1\x2f")?;
/// println!(rt; "{}", link.build_id.len())?; // 2
/// ```
pub fn debug_alt_link(section: &[u8]) -> Result<DebugAltLink<'_>, DebugLinkError>
    ensures { ok_map alt_link_view result ≡ debug_alt_link section.now }
{
    match first_nul(section) {
        Some(end) => Ok(DebugAltLink {
            name: &section[..end],
            build_id: &section[end + 1..],
        }),
        None => Err(DebugLinkError::EndlessName),
    }
}

// The four bytes of a checksum, from a place on.
fn crc_at<E: EndianParse>(order: E, section: &[u8], place: usize) -> Result<u32, DebugLinkError>
    ensures { result ≡ crc_at (E.little order) section.now place }
{
    let mut offset = place;
    match order.parse_u32_at(&mut offset, section) {
        Ok(crc) => Ok(crc),
        Err(_) => Err(DebugLinkError::NoChecksum),
    }
}
