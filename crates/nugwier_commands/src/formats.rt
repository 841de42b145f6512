//! What a file is that is no ELF file.
ghost use Rattle.std.specs.Prelude.{◌≡◌};
ghost use Rattle.std.specs.Option.{option_copied};
ghost use Rattle.nugwier_commands.specs.Formats.{format_of, formats_of, is_elf, is_text, name_in, named_format, not_elf};
ghost use Rattle.nugwier_commands.specs.Formats.{not_elf_text};

use elf_abi::abi;
use nugwier_report::quoted::Quoted;
use std::fmt;

/// How many bytes at the start of a file tell its format, at most.
pub const FRONT: usize = 16;

/// Other formats of files that are given to linkers and readers of ELF files: the bytes at the start, and the name.
pub const FORMATS: &[(&[u8], &str)] = &[
    (b"!<arch>\n", "an ar archive"),
    (b"!<thin>\n", "a thin ar archive"),
    (b"#!", "a script"),
    (b"/* GNU ld script", "a linker script"),
    (b"\x1f\x8b", "gzip data"),
    (b"BZh", "bzip2 data"),
    (b"\xfd7zXZ\0", "xz data"),
    (b"\x28\xb5\x2f\xfd", "zstd data"),
    (b"PK\x03\x04", "a zip archive"),
    (b"MZ", "a program for DOS or Windows"),
    (b"\xcf\xfa\xed\xfe", "a Mach-O file"),
    (b"\xce\xfa\xed\xfe", "a Mach-O file"),
    (b"BC\xc0\xde", "LLVM bitcode"),
    (b"\0asm", "WebAssembly"),
];

/// Whether a file that begins with these bytes begins as an ELF file does (gABI, chapter "ELF Header").
pub fn is_elf(front: &[u8]) -> bool
    ensures { result ≡ is_elf front.now }
{
    front.starts_with(&abi::ELFMAGIC)
}

/// That a file is no ELF file, but one of this format, if it is known.
#[derive(Drop)]
pub struct NotElf<'a>(pub Option<Quoted<'a>>);

impl fmt::Display for NotElf<'_> {
    ghost use Rattle.nugwier_commands.specs.Formats.{not_elf_text};

    ghost output = { λ not_elf. not_elf_text not_elf.0 };

    fn fmt<W: fmt::Write>(&self, f: &mut fmt::Formatter<W>) -> fmt::Result {
        match &self.0 {
            Some(name) => write!(f, "not an ELF file ({name})"),
            None => f.write_str("not an ELF file"),
        }
    }
}

/// That a file which begins with these bytes is no ELF file.
pub fn not_elf(front: &[u8]) -> NotElf<'static>
    ensures { not_elf_text result.0 ≡ not_elf front.now }
{
    match format_of(front) {
        Some(name) => NotElf(Some(Quoted::new(name.as_bytes()))),
        None => NotElf(None),
    }
}

fn format_of(front: &[u8]) -> Option<&'static str>
    ensures { option_copied result ≡ format_of front.now }
{
    if front.is_empty() {
        return Some("empty");
    }
    match named_format(front) {
        Some(name) => Some(name),
        None if is_text(front) => Some("text"),
        None => None,
    }
}

fn named_format(front: &[u8]) -> Option<&'static str>
    ensures { option_copied result ≡ named_format front.now }
{
    name_in(FORMATS, front)
}

// The name of the first of these formats whose bytes these begin with.
fn name_in(formats: &[(&[u8], &'static str)], front: &[u8]) -> Option<&'static str>
    ensures { option_copied result ≡ name_in front.now (formats_of formats.now) }
{
    for format in formats {
        if front.starts_with(format.0) {
            return Some(format.1);
        }
    }
    None
}

fn is_text(front: &[u8]) -> bool
    ensures { result ≡ is_text front.now }
{
    front.iter().all(|byte| byte.is_ascii_graphic() || byte.is_ascii_whitespace())
}
