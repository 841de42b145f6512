//! The plain structs, which no call of the library reads or writes.
use crate::shown::assert_shown;
use elf::compression::{Elf32_Chdr, Elf64_Chdr};
use elf::dynamic::{Elf32_Dyn, Elf64_Dyn};
use elf::file::{Elf32_Ehdr, Elf64_Ehdr};
use elf::relocation::{Elf32_Rel, Elf32_Rela, Elf64_Rel, Elf64_Rela};
use elf::section::{Elf32_Shdr, Elf64_Shdr};
use elf::segment::{Elf32_Phdr, Elf64_Phdr};
use elf::symbol::{Elf32_Sym, Elf64_Sym};

// Each field has the greatest value of its type.
#[test]
fn plain_structs_have_their_fields(rt: HostRuntime) {
    assert_shown(
        &rt,
        Elf32_Ehdr {
            e_ident: [u8::MAX; 16],
            e_type: u16::MAX,
            e_machine: u16::MAX,
            e_version: u32::MAX,
            e_entry: u32::MAX,
            e_phoff: u32::MAX,
            e_shoff: u32::MAX,
            e_flags: u32::MAX,
            e_ehsize: u16::MAX,
            e_phentsize: u16::MAX,
            e_phnum: u16::MAX,
            e_shentsize: u16::MAX,
            e_shnum: u16::MAX,
            e_shstrndx: u16::MAX,
        },
        "Elf32_Ehdr { e_ident: [255, 255, 255, 255, 255, 255, 255, 255, 255, 255, 255, 255, 255, 255, 255, 255], \
        e_type: 65535, e_machine: 65535, e_version: 4294967295, e_entry: 4294967295, e_phoff: 4294967295, e_shoff: \
        4294967295, e_flags: 4294967295, e_ehsize: 65535, e_phentsize: 65535, e_phnum: 65535, e_shentsize: 65535, \
        e_shnum: 65535, e_shstrndx: 65535 }",
    );
    assert_shown(
        &rt,
        Elf64_Ehdr {
            e_ident: [u8::MAX; 16],
            e_type: u16::MAX,
            e_machine: u16::MAX,
            e_version: u32::MAX,
            e_entry: u64::MAX,
            e_phoff: u64::MAX,
            e_shoff: u64::MAX,
            e_flags: u32::MAX,
            e_ehsize: u16::MAX,
            e_phentsize: u16::MAX,
            e_phnum: u16::MAX,
            e_shentsize: u16::MAX,
            e_shnum: u16::MAX,
            e_shstrndx: u16::MAX,
        },
        "Elf64_Ehdr { e_ident: [255, 255, 255, 255, 255, 255, 255, 255, 255, 255, 255, 255, 255, 255, 255, 255], \
        e_type: 65535, e_machine: 65535, e_version: 4294967295, e_entry: 18446744073709551615, e_phoff: \
        18446744073709551615, e_shoff: 18446744073709551615, e_flags: 4294967295, e_ehsize: 65535, e_phentsize: \
        65535, e_phnum: 65535, e_shentsize: 65535, e_shnum: 65535, e_shstrndx: 65535 }",
    );
    assert_shown(
        &rt,
        Elf32_Shdr {
            sh_name: u32::MAX,
            sh_type: u32::MAX,
            sh_flags: u32::MAX,
            sh_addr: u32::MAX,
            sh_offset: u32::MAX,
            sh_size: u32::MAX,
            sh_link: u32::MAX,
            sh_info: u32::MAX,
            sh_addralign: u32::MAX,
            sh_entsize: u32::MAX,
        },
        "Elf32_Shdr { sh_name: 4294967295, sh_type: 4294967295, sh_flags: 4294967295, sh_addr: 4294967295, sh_offset: \
        4294967295, sh_size: 4294967295, sh_link: 4294967295, sh_info: 4294967295, sh_addralign: 4294967295, \
        sh_entsize: 4294967295 }",
    );
    assert_shown(
        &rt,
        Elf64_Shdr {
            sh_name: u32::MAX,
            sh_type: u32::MAX,
            sh_flags: u64::MAX,
            sh_addr: u64::MAX,
            sh_offset: u64::MAX,
            sh_size: u64::MAX,
            sh_link: u32::MAX,
            sh_info: u32::MAX,
            sh_addralign: u64::MAX,
            sh_entsize: u64::MAX,
        },
        "Elf64_Shdr { sh_name: 4294967295, sh_type: 4294967295, sh_flags: 18446744073709551615, sh_addr: \
        18446744073709551615, sh_offset: 18446744073709551615, sh_size: 18446744073709551615, sh_link: 4294967295, \
        sh_info: 4294967295, sh_addralign: 18446744073709551615, sh_entsize: 18446744073709551615 }",
    );
    assert_shown(
        &rt,
        Elf32_Phdr {
            p_type: u32::MAX,
            p_offset: u32::MAX,
            p_vaddr: u32::MAX,
            p_paddr: u32::MAX,
            p_filesz: u32::MAX,
            p_memsz: u32::MAX,
            p_flags: u32::MAX,
            p_align: u32::MAX,
        },
        "Elf32_Phdr { p_type: 4294967295, p_offset: 4294967295, p_vaddr: 4294967295, p_paddr: 4294967295, p_filesz: \
        4294967295, p_memsz: 4294967295, p_flags: 4294967295, p_align: 4294967295 }",
    );
    assert_shown(
        &rt,
        Elf64_Phdr {
            p_type: u32::MAX,
            p_flags: u32::MAX,
            p_offset: u64::MAX,
            p_vaddr: u64::MAX,
            p_paddr: u64::MAX,
            p_filesz: u64::MAX,
            p_memsz: u64::MAX,
            p_align: u64::MAX,
        },
        "Elf64_Phdr { p_type: 4294967295, p_flags: 4294967295, p_offset: 18446744073709551615, p_vaddr: \
        18446744073709551615, p_paddr: 18446744073709551615, p_filesz: 18446744073709551615, p_memsz: \
        18446744073709551615, p_align: 18446744073709551615 }",
    );
}

// Each field has the greatest value of its type, and a signed one the least.
#[test]
fn plain_structs_of_records_have_their_fields(rt: HostRuntime) {
    assert_shown(
        &rt,
        Elf32_Sym {
            st_name: u32::MAX,
            st_value: u32::MAX,
            st_size: u32::MAX,
            st_info: u8::MAX,
            st_other: u8::MAX,
            st_shndx: u16::MAX,
        },
        "Elf32_Sym { st_name: 4294967295, st_value: 4294967295, st_size: 4294967295, st_info: 255, st_other: 255, \
        st_shndx: 65535 }",
    );
    assert_shown(
        &rt,
        Elf64_Sym {
            st_name: u32::MAX,
            st_info: u8::MAX,
            st_other: u8::MAX,
            st_shndx: u16::MAX,
            st_value: u64::MAX,
            st_size: u64::MAX,
        },
        "Elf64_Sym { st_name: 4294967295, st_info: 255, st_other: 255, st_shndx: 65535, st_value: \
        18446744073709551615, st_size: 18446744073709551615 }",
    );
    assert_shown(
        &rt,
        Elf32_Rel {
            r_offset: u32::MAX,
            r_info: u32::MAX,
        },
        "Elf32_Rel { r_offset: 4294967295, r_info: 4294967295 }",
    );
    assert_shown(
        &rt,
        Elf64_Rel {
            r_offset: u64::MAX,
            r_info: u64::MAX,
        },
        "Elf64_Rel { r_offset: 18446744073709551615, r_info: 18446744073709551615 }",
    );
    assert_shown(
        &rt,
        Elf32_Rela {
            r_offset: u32::MAX,
            r_info: u32::MAX,
            r_addend: i32::MIN,
        },
        "Elf32_Rela { r_offset: 4294967295, r_info: 4294967295, r_addend: -2147483648 }",
    );
    assert_shown(
        &rt,
        Elf64_Rela {
            r_offset: u64::MAX,
            r_info: u64::MAX,
            r_addend: i64::MIN,
        },
        "Elf64_Rela { r_offset: 18446744073709551615, r_info: 18446744073709551615, r_addend: -9223372036854775808 }",
    );
    assert_shown(
        &rt,
        Elf32_Dyn {
            d_tag: i32::MIN,
            d_un: u32::MAX,
        },
        "Elf32_Dyn { d_tag: -2147483648, d_un: 4294967295 }",
    );
    assert_shown(
        &rt,
        Elf64_Dyn {
            d_tag: i64::MIN,
            d_un: u64::MAX,
        },
        "Elf64_Dyn { d_tag: -9223372036854775808, d_un: 18446744073709551615 }",
    );
    assert_shown(
        &rt,
        Elf32_Chdr {
            ch_type: u32::MAX,
            ch_size: u32::MAX,
            ch_addralign: u32::MAX,
        },
        "Elf32_Chdr { ch_type: 4294967295, ch_size: 4294967295, ch_addralign: 4294967295 }",
    );
    assert_shown(
        &rt,
        Elf64_Chdr {
            ch_type: u32::MAX,
            ch_reserved: u32::MAX,
            ch_size: u64::MAX,
            ch_addralign: u64::MAX,
        },
        "Elf64_Chdr { ch_type: 4294967295, ch_reserved: 4294967295, ch_size: 18446744073709551615, ch_addralign: \
        18446744073709551615 }",
    );
}
