//! Lines of the configuration of the dynamic linker.
use crate::row_words::Words;
use crate::shown::{Shown, text};
use elf_libraries::conf::{ConfLine, conf_lines};

/// `conf BYTES`: what the lines of the file name.
pub(crate) fn show_conf(rt: &HostRuntime, words: &mut Words<'_>) -> Shown {
    let data = words.bytes(rt);
    for line in &conf_lines(rt.alloc(), data.as_slice())? {
        match line {
            ConfLine::Folder(path) => print!(rt; "\n    folder {:?}", text(path))?,
            ConfLine::Include(pattern) => print!(rt; "\n    files {:?}", text(pattern))?,
        }
    }
    Ok(())
}
