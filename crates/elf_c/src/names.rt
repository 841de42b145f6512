//! The names of values, as the format's constants spell them.
ghost use Rattle.std.specs.Prelude.{◌≡◌, nat_eq};
ghost use Rattle.std.specs.Option.{option_copied};
ghost use Rattle.std.specs.Ordering.{int_eq};
ghost use Rattle.elf_abi.specs.DynamicNames.{d_tag_names};
ghost use Rattle.elf_abi.specs.HeaderNames.{e_osabi_names, e_type_names};
ghost use Rattle.elf_abi.specs.MachineNames.{e_machine_names};
ghost use Rattle.elf_abi.specs.NoteNames.{note_abi_tag_os_names};
ghost use Rattle.elf_abi.specs.SectionNames.{ch_type_names, sh_type_names};
ghost use Rattle.elf_abi.specs.SegmentNames.{p_type_names};
ghost use Rattle.elf_abi.specs.SymbolNames.{st_bind_names, st_symtype_names, st_vis_names};
ghost use Rattle.elf_abi.specs.Names.{name_of};
ghost use Rattle.elf_names.specs.Notes.{note_type_name};
ghost use Rattle.elf_names.specs.Relocations.{relocation_type_name};
ghost use Rattle.elf_names.specs.Sections.{section_type_name};
ghost use Rattle.elf_names.specs.Segments.{segment_type_name};
ghost use Rattle.elf_names.specs.Tags.{tag_name};
ghost use Rattle.elf_c.specs.Names.{error_name, name_shown, name_view};

use elf_abi::to_str;
use elf_names::notes::note_type_name;
use elf_names::relocations::relocation_type_name;
use elf_names::sections::section_type_name;
use elf_names::segments::segment_type_name;
use elf_names::tags::tag_name;

/// The name of a value, if it has one. If it has none, `bytes` is empty. The bytes stay as long as the program runs.
#[repr(C)]
#[derive(Drop)]
pub struct NugwierName<'data> {
    pub found: bool,
    pub bytes: &'data [u8],
}

// Writes a name, or that there is none.
fn write_name(name: Option<&'static str>, place: &mut NugwierName<'static>)
    ensures { name_view place.new ≡ name_shown (option_copied name.entry) }
{
    *place = match name {
        Some(text) => NugwierName {
            found: true,
            bytes: text.as_bytes(),
        },
        None => NugwierName {
            found: false,
            bytes: &[],
        },
    };
}

/// Writes the name of an operating system's ABI, byte 7 of `e_ident`, as `ELFOSABI_LINUX`.
#[unsafe(no_mangle)]
pub extern "C" fn nugwier_e_osabi_name(e_osabi: u8, name: &mut NugwierName<'static>)
    ensures { name_view name.new ≡ name_shown (name_of nat_eq e_osabi_names e_osabi) }
{
    write_name(to_str::e_osabi_to_str(e_osabi), name);
}

/// Writes the name of a kind of file, as `ET_EXEC`.
#[unsafe(no_mangle)]
pub extern "C" fn nugwier_e_type_name(e_type: u16, name: &mut NugwierName<'static>)
    ensures { name_view name.new ≡ name_shown (name_of nat_eq e_type_names e_type) }
{
    write_name(to_str::e_type_to_str(e_type), name);
}

/// Writes the name of a machine, as `EM_X86_64`.
#[unsafe(no_mangle)]
pub extern "C" fn nugwier_e_machine_name(e_machine: u16, name: &mut NugwierName<'static>)
    ensures { name_view name.new ≡ name_shown (name_of nat_eq e_machine_names e_machine) }
{
    write_name(to_str::e_machine_to_str(e_machine), name);
}

/// Writes the name of a type of sections, as `SHT_PROGBITS`.
#[unsafe(no_mangle)]
pub extern "C" fn nugwier_sh_type_name(sh_type: u32, name: &mut NugwierName<'static>)
    ensures { name_view name.new ≡ name_shown (name_of nat_eq sh_type_names sh_type) }
{
    write_name(to_str::sh_type_to_str(sh_type), name);
}

/// Writes the name of a type of segments, as `PT_LOAD`.
#[unsafe(no_mangle)]
pub extern "C" fn nugwier_p_type_name(p_type: u32, name: &mut NugwierName<'static>)
    ensures { name_view name.new ≡ name_shown (name_of nat_eq p_type_names p_type) }
{
    write_name(to_str::p_type_to_str(p_type), name);
}

/// Writes the name of a type of symbols, as `STT_FUNC`.
#[unsafe(no_mangle)]
pub extern "C" fn nugwier_st_symtype_name(st_symtype: u8, name: &mut NugwierName<'static>)
    ensures { name_view name.new ≡ name_shown (name_of nat_eq st_symtype_names st_symtype) }
{
    write_name(to_str::st_symtype_to_str(st_symtype), name);
}

/// Writes the name of a binding of symbols, as `STB_GLOBAL`.
#[unsafe(no_mangle)]
pub extern "C" fn nugwier_st_bind_name(st_bind: u8, name: &mut NugwierName<'static>)
    ensures { name_view name.new ≡ name_shown (name_of nat_eq st_bind_names st_bind) }
{
    write_name(to_str::st_bind_to_str(st_bind), name);
}

/// Writes the name of a visibility of symbols, as `STV_HIDDEN`.
#[unsafe(no_mangle)]
pub extern "C" fn nugwier_st_vis_name(st_vis: u8, name: &mut NugwierName<'static>)
    ensures { name_view name.new ≡ name_shown (name_of nat_eq st_vis_names st_vis) }
{
    write_name(to_str::st_vis_to_str(st_vis), name);
}

/// Writes the name of a type of compression, as `ELFCOMPRESS_ZLIB`.
#[unsafe(no_mangle)]
pub extern "C" fn nugwier_ch_type_name(ch_type: u32, name: &mut NugwierName<'static>)
    ensures { name_view name.new ≡ name_shown (name_of nat_eq ch_type_names ch_type) }
{
    write_name(to_str::ch_type_to_str(ch_type), name);
}

/// Writes the name of an operating system of an ABI tag, as `ELF_NOTE_OS_LINUX`.
#[unsafe(no_mangle)]
pub extern "C" fn nugwier_note_abi_tag_os_name(os: u32, name: &mut NugwierName<'static>)
    ensures { name_view name.new ≡ name_shown (name_of nat_eq note_abi_tag_os_names os) }
{
    write_name(to_str::note_abi_tag_os_to_str(os), name);
}

/// Writes the name of a tag of dynamic entries, as `DT_NEEDED`.
#[unsafe(no_mangle)]
pub extern "C" fn nugwier_d_tag_name(d_tag: i64, name: &mut NugwierName<'static>)
    ensures { name_view name.new ≡ name_shown (name_of int_eq d_tag_names d_tag) }
{
    write_name(to_str::d_tag_to_str(d_tag), name);
}

/// Writes the name of a type of relocations in files of a machine (`e_machine`), as `R_X86_64_JUMP_SLOT`.
#[unsafe(no_mangle)]
pub extern "C" fn nugwier_r_type_name(e_machine: u16, r_type: u32, name: &mut NugwierName<'static>)
    ensures { name_view name.new ≡ name_shown (relocation_type_name e_machine r_type) }
{
    write_name(relocation_type_name(e_machine, r_type), name);
}

/// Writes the name of a type of sections in files of a machine (`e_machine`): that of the machine, as `SHT_ARM_EXIDX`, or
/// that of any machine, as `SHT_RELR`; of a type that neither list has, that of `nugwier_sh_type_name`.
#[unsafe(no_mangle)]
pub extern "C" fn nugwier_machine_sh_type_name(
    e_machine: u16,
    sh_type: u32,
    name: &mut NugwierName<'static>,
)
    ensures { name_view name.new ≡ name_shown (section_type_name e_machine sh_type) }
{
    write_name(section_type_name(e_machine, sh_type), name);
}

/// Writes the name of a type of segments in files of a machine (`e_machine`): that of the machine, as `PT_ARM_EXIDX`, or
/// that of any machine; of a type that neither list has, that of `nugwier_p_type_name`.
#[unsafe(no_mangle)]
pub extern "C" fn nugwier_machine_p_type_name(
    e_machine: u16,
    p_type: u32,
    name: &mut NugwierName<'static>,
)
    ensures { name_view name.new ≡ name_shown (segment_type_name e_machine p_type) }
{
    write_name(segment_type_name(e_machine, p_type), name);
}

/// Writes the name of a tag in files of a machine (`e_machine`): that of the machine, as `DT_MIPS_GOTSYM`, or that of any
/// machine, as `DT_RELR`; of a tag that neither list has, that of `nugwier_d_tag_name`.
#[unsafe(no_mangle)]
pub extern "C" fn nugwier_machine_d_tag_name(
    e_machine: u16,
    d_tag: i64,
    name: &mut NugwierName<'static>,
)
    ensures { name_view name.new ≡ name_shown (tag_name e_machine d_tag) }
{
    write_name(tag_name(e_machine, d_tag), name);
}

/// Writes the name of a type of notes of an owner, as `NT_GNU_BUILD_ID`. The name of the owner is without the 0 byte at
/// its end.
#[unsafe(no_mangle)]
pub extern "C" fn nugwier_n_type_name(owner: &[u8], n_type: u64, name: &mut NugwierName<'static>)
    ensures { name_view name.new ≡ name_shown (note_type_name owner.now n_type) }
{
    write_name(note_type_name(owner, n_type), name);
}

// The name of the error with a code.
fn error_name(code: u32) -> Option<&'static str>
    ensures { option_copied result ≡ error_name code }
{
    match code {
        1 => Some("BadMagic"),
        2 => Some("UnsupportedElfClass"),
        3 => Some("UnsupportedElfEndianness"),
        4 => Some("UnsupportedVersion"),
        5 => Some("BadOffset"),
        6 => Some("StringTableMissingNul"),
        7 => Some("BadEntsize"),
        8 => Some("UnexpectedSectionType"),
        9 => Some("UnexpectedSegmentType"),
        10 => Some("UnexpectedAlignment"),
        11 => Some("SliceReadError"),
        12 => Some("IntegerOverflow"),
        13 => Some("Utf8Error"),
        14 => Some("TryFromSliceError"),
        15 => Some("TryFromIntError"),
        16 => Some("IOError"),
        17 => Some("OutOfMemory"),
        18 => Some("NotLoaded"),
        19 => Some("NoAddress"),
        20 => Some("NoSize"),
        21 => Some("NoSegment"),
        _ => None,
    }
}

/// Writes the name of the error with a code of a `nugwier_status`, as `BadMagic`. The code 0, of success, has none.
#[unsafe(no_mangle)]
pub extern "C" fn nugwier_error_name(code: u32, name: &mut NugwierName<'static>)
    ensures { name_view name.new ≡ name_shown (error_name code) }
{
    write_name(error_name(code), name);
}
