//! The names of values, as the format's constants spell them, and texts for values that have none.
ghost use Rattle.std.specs.Prelude.{◌≡◌, ◌==◌, if◌then◌else◌, IsTrue, All, IfOk};
ghost use Rattle.std.specs.Prelude.{bit_and, codes, map, nat_eq, string_bytes, unwrap_or};
ghost use Rattle.std.specs.Option.{option_copied};
ghost use Rattle.std.specs.Ordering.{int_eq};
ghost use Rattle.elf_abi.specs.Names.{name_of, name_or_number, number_text, row_of, values_rise, NamesEachOnce};
ghost use Rattle.elf_abi.specs.HeaderNames.{e_osabi_names, e_type_human_names, e_type_names};
ghost use Rattle.elf_abi.specs.MachineNames.{e_machine_human_names, e_machine_names};
ghost use Rattle.elf_abi.specs.SectionNames.{sh_type_names, ch_type_names};
ghost use Rattle.elf_abi.specs.SegmentNames.{p_flags_names, p_type_names};
ghost use Rattle.elf_abi.specs.SymbolNames.{st_symtype_names, st_bind_names, st_vis_names};
ghost use Rattle.elf_abi.specs.NoteNames.{note_abi_tag_os_names};
ghost use Rattle.elf_abi.specs.DynamicNames.{d_tag_names};
ghost use Rattle.elf_abi.specs.AllNames.{unsigned_lists, signed_lists};

use crate::abi;
use std::alloc::{AllocError, Global};

mod rows;

/// The name of an operating system's ABI, byte 7 of `e_ident`, as `ELFOSABI_LINUX`. `None` for a
/// value with no name. See gABI chapter 4, "ELF Identification".
pub fn e_osabi_to_str(e_osabi: u8) -> Option<&'static str>
    ensures { option_copied result ≡ name_of nat_eq e_osabi_names e_osabi }
{
    name_of(&rows::E_OSABI, e_osabi)
}

/// The name of an operating system's ABI, or for a value with no name the text `e_osabi(0x..)`. The only error is a
/// failed allocation for the text.
pub fn e_osabi_to_string(alloc: Global, e_osabi: u8) -> Result<String, AllocError>
    ensures { IfOk result (λ text. string_bytes text ≡
        name_or_number (codes "e_osabi") e_osabi_names e_osabi) }
{
    name_or_number(
        alloc,
        e_osabi_to_str(e_osabi),
        "e_osabi",
        u32::from(e_osabi),
    )
}

/// What kind of file an `e_type` says, in words. `None` for a value with no name. See gABI chapter
/// 4, "ELF Header".
pub fn e_type_to_human_str(e_type: u16) -> Option<&'static str>
    ensures { option_copied result ≡ name_of nat_eq e_type_human_names e_type }
{
    name_of(&rows::E_TYPE_HUMAN, e_type)
}

/// The name of a kind of file, as `ET_EXEC`. `None` for a value with no name. See gABI chapter 4,
/// "ELF Header".
pub fn e_type_to_str(e_type: u16) -> Option<&'static str>
    ensures { option_copied result ≡ name_of nat_eq e_type_names e_type }
{
    name_of(&rows::E_TYPE, e_type)
}

/// The name of a kind of file, or for a value with no name the text `e_type(0x..)`. The only error is a failed
/// allocation for the text.
pub fn e_type_to_string(alloc: Global, e_type: u16) -> Result<String, AllocError>
    ensures { IfOk result (λ text. string_bytes text ≡
        name_or_number (codes "e_type") e_type_names e_type) }
{
    name_or_number(alloc, e_type_to_str(e_type), "e_type", u32::from(e_type))
}

/// The machine of an `e_machine`, in words. `None` for a value with no name. See gABI chapter 4,
/// "ELF Header".
pub fn e_machine_to_human_str(e_machine: u16) -> Option<&'static str>
    ensures { option_copied result ≡ name_of nat_eq e_machine_human_names e_machine }
{
    name_of(&rows::E_MACHINE_HUMAN, e_machine)
}

/// The name of a machine, as `EM_X86_64`. `None` for a value with no name. See gABI chapter 4, "ELF
/// Header".
pub fn e_machine_to_str(e_machine: u16) -> Option<&'static str>
    ensures { option_copied result ≡ name_of nat_eq e_machine_names e_machine }
{
    name_of(&rows::E_MACHINE, e_machine)
}

/// The name of a machine, or for a value with no name the text `e_machine(0x..)`. The only error is a failed allocation
/// for the text.
pub fn e_machine_to_string(alloc: Global, e_machine: u16) -> Result<String, AllocError>
    ensures { IfOk result (λ text. string_bytes text ≡
        name_or_number (codes "e_machine") e_machine_names e_machine) }
{
    name_or_number(
        alloc,
        e_machine_to_str(e_machine),
        "e_machine",
        u32::from(e_machine),
    )
}

/// The name of a section's type, as `SHT_SYMTAB`. `None` for a value with no name. See gABI chapter
/// 4, "Sections".
pub fn sh_type_to_str(sh_type: u32) -> Option<&'static str>
    ensures { option_copied result ≡ name_of nat_eq sh_type_names sh_type }
{
    name_of(&rows::SH_TYPE, sh_type)
}

/// The name of a section's type, or for a value with no name the text `sh_type(0x..)`. The only error is a failed
/// allocation for the text.
pub fn sh_type_to_string(alloc: Global, sh_type: u32) -> Result<String, AllocError>
    ensures { IfOk result (λ text. string_bytes text ≡
        name_or_number (codes "sh_type") sh_type_names sh_type) }
{
    name_or_number(alloc, sh_type_to_str(sh_type), "sh_type", sh_type)
}

/// A segment's flags as three characters, `R`, `W` and `E`, each a space if its flag is not set. If a further flag is
/// set, the text `p_flags(0x..)`. The only error is a failed allocation for the text. See gABI chapter 5, "Program
/// Header".
pub fn p_flags_to_string(alloc: Global, p_flags: u32) -> Result<String, AllocError>
    ensures { IfOk result (λ text. string_bytes text ≡
        name_or_number (codes "p_flags") p_flags_names p_flags) }
{
    if p_flags < 8 {
        let read = letter_or_space(p_flags, abi::PF_R, "R");
        let write = letter_or_space(p_flags, abi::PF_W, "W");
        let execute = letter_or_space(p_flags, abi::PF_X, "E");
        format!(in alloc; "{read}{write}{execute}")
    } else {
        number_text(alloc, "p_flags", p_flags)
    }
}

/// The name of a segment's type, as `PT_LOAD`. `None` for a value with no name. See gABI chapter 5,
/// "Program Header".
pub fn p_type_to_str(p_type: u32) -> Option<&'static str>
    ensures { option_copied result ≡ name_of nat_eq p_type_names p_type }
{
    name_of(&rows::P_TYPE, p_type)
}

/// The name of a segment's type, or for a value with no name the text `p_type(0x..)`. The only error is a failed
/// allocation for the text.
pub fn p_type_to_string(alloc: Global, p_type: u32) -> Result<String, AllocError>
    ensures { IfOk result (λ text. string_bytes text ≡
        name_or_number (codes "p_type") p_type_names p_type) }
{
    name_or_number(alloc, p_type_to_str(p_type), "p_type", p_type)
}

/// The name of a symbol's type, as `STT_FUNC`. `None` for a value with no name. See gABI chapter 4,
/// "Symbol Table".
pub fn st_symtype_to_str(st_symtype: u8) -> Option<&'static str>
    ensures { option_copied result ≡ name_of nat_eq st_symtype_names st_symtype }
{
    name_of(&rows::ST_SYMTYPE, st_symtype)
}

/// The name of a symbol's type, or for a value with no name the text `st_symtype(0x..)`. The only error is a failed
/// allocation for the text.
pub fn st_symtype_to_string(alloc: Global, st_symtype: u8) -> Result<String, AllocError>
    ensures { IfOk result (λ text. string_bytes text ≡
        name_or_number (codes "st_symtype") st_symtype_names st_symtype) }
{
    name_or_number(
        alloc,
        st_symtype_to_str(st_symtype),
        "st_symtype",
        u32::from(st_symtype),
    )
}

/// The name of a symbol's binding, as `STB_GLOBAL`. `None` for a value with no name. See gABI
/// chapter 4, "Symbol Table".
pub fn st_bind_to_str(st_bind: u8) -> Option<&'static str>
    ensures { option_copied result ≡ name_of nat_eq st_bind_names st_bind }
{
    name_of(&rows::ST_BIND, st_bind)
}

/// The name of a symbol's binding, or for a value with no name the text `st_bind(0x..)`. The only error is a failed
/// allocation for the text.
pub fn st_bind_to_string(alloc: Global, st_bind: u8) -> Result<String, AllocError>
    ensures { IfOk result (λ text. string_bytes text ≡
        name_or_number (codes "st_bind") st_bind_names st_bind) }
{
    name_or_number(
        alloc,
        st_bind_to_str(st_bind),
        "st_bind",
        u32::from(st_bind),
    )
}

/// The name of a symbol's visibility, as `STV_HIDDEN`. `None` for a value with no name. See gABI
/// chapter 4, "Symbol Table".
pub fn st_vis_to_str(st_vis: u8) -> Option<&'static str>
    ensures { option_copied result ≡ name_of nat_eq st_vis_names st_vis }
{
    name_of(&rows::ST_VIS, st_vis)
}

/// The name of a symbol's visibility, or for a value with no name the text `st_vis(0x..)`. The only error is a failed
/// allocation for the text.
pub fn st_vis_to_string(alloc: Global, st_vis: u8) -> Result<String, AllocError>
    ensures { IfOk result (λ text. string_bytes text ≡
        name_or_number (codes "st_vis") st_vis_names st_vis) }
{
    name_or_number(alloc, st_vis_to_str(st_vis), "st_vis", u32::from(st_vis))
}

/// The name of a compression, as `ELFCOMPRESS_ZLIB`. `None` for a value with no name. See gABI
/// chapter 4, "Section Compression".
pub fn ch_type_to_str(ch_type: u32) -> Option<&'static str>
    ensures { option_copied result ≡ name_of nat_eq ch_type_names ch_type }
{
    name_of(&rows::CH_TYPE, ch_type)
}

/// The operating system that a GNU ABI tag names, in words. `None` for a value with no name.
pub fn note_abi_tag_os_to_str(os: u32) -> Option<&'static str>
    ensures { option_copied result ≡ name_of nat_eq note_abi_tag_os_names os }
{
    name_of(&rows::NOTE_ABI_TAG_OS, os)
}

/// The name of a dynamic entry's tag, as `DT_NEEDED`. `None` for a tag with no name. See gABI
/// chapter 5, "Dynamic Section".
pub fn d_tag_to_str(d_tag: i64) -> Option<&'static str>
    ensures { option_copied result ≡ name_of int_eq d_tag_names d_tag }
{
    name_of(&rows::D_TAG, d_tag)
}

/// States that no list of names has two names for one value. It does nothing.
pub fn each_value_has_one_name()
    ensures unsigned { All NamesEachOnce unsigned_lists }
    ensures signed { All NamesEachOnce signed_lists }
{}

/// The name of `value`, by binary search: the table is sorted by value.
fn name_of<T: Ord + Copy>(table: &[(T, &'static str)], value: T) -> Option<&'static str>
    requires { IsTrue (values_rise T.cmp table.now) }
    ensures { option_copied result ≡ name_of T.eq (map row_of table.now) value }
{
    match table.binary_search_by_key(&value, |row| row.0) {
        Ok(place) => Some(table[place].1),
        Err(_) => None,
    }
}

/// The name, or the text of the value if it has no name.
fn name_or_number(
    alloc: Global,
    name: Option<&'static str>,
    prefix: &str,
    value: u32,
) -> Result<String, AllocError>
    ensures { IfOk result (λ text. string_bytes text ≡
        unwrap_or (option_copied name.entry) (number_text prefix.now value)) }
{
    match name {
        Some(name) => String::from_str(alloc, name),
        None => number_text(alloc, prefix, value),
    }
}

fn number_text(alloc: Global, prefix: &str, value: u32) -> Result<String, AllocError>
    ensures { IfOk result (λ text. string_bytes text ≡ number_text prefix.now value) }
{
    format!(in alloc; "{prefix}(0x{value:x})")
}

fn letter_or_space(flags: u32, flag: u32, letter: &'static str) -> &'static str
    ensures { result.now ≡ (if bit_and flags flag == 0 then codes " " else letter.now) }
{
    if flags & flag != 0 { letter } else { " " }
}
