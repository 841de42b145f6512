//! The common data of a file, and what its hash sections find in it.
use crate::shown::{Shown, show};
use elf::ElfBytes;
use elf::endian::EndianParse;

/// Which of the data there are, and what both hash sections find for the name.
pub(crate) fn show_common<E: EndianParse>(
    rt: &HostRuntime,
    file: &ElfBytes<'_, E>,
    name: &[u8],
) -> Shown {
    let common = file.find_common_data()?;
    let symtab = common.symtab.is_some();
    let dynsyms = common.dynsyms.is_some();
    let dynamic = common.dynamic.map(|table| table.len());
    print!(rt; "symtab {symtab} dynsyms {dynsyms} dynamic {dynamic:?}")?;
    let (Some(symbols), Some(strings)) = (&common.dynsyms, &common.dynsyms_strs) else {
        return Ok(());
    };
    if let Some(table) = &common.sysv_hash {
        print!(rt; "; sysv ")?;
        show(rt, table.find(name, symbols, strings))?;
    }
    if let Some(table) = &common.gnu_hash {
        print!(rt; "; gnu ")?;
        show(rt, table.find(name, symbols, strings))?;
    }
    Ok(())
}
