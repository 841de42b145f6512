//! What the dynamic linker sees of a file.
use crate::row_words::{Words, field_of};
use crate::shown::{Shown, show, show_lines};
use elf::ElfBytes;
use elf::dynamic::DynamicTable;
use elf::endian::AnyEndian;
use elf::string_table::{StringTable, TerminatedStrings};
use elf_dynamic::dynamic_view::{
    DynamicError, bytes_from, dynamic_table, name_of, part_of, required, string_part, strings,
    symbol_count, symbol_part, value, values,
};

type File<'data> = ElfBytes<'data, AnyEndian>;

/// `loaded QUESTION FILE CHANGE..`: what the file answers to a question about its dynamic entries, as `value=14` by a
/// tag, or about its memory, as `part=4096:8` by an address and a size.
pub(crate) fn show_loaded(rt: &HostRuntime, words: &mut Words<'_>) -> Shown {
    let (question, of) = field_of(words.word());
    let data = words.file(rt);
    let file = File::minimal_parse(data.as_slice())?;
    let (first, second) = of.split_once(':').unwrap_or((of, "0"));
    match question {
        "part" => {
            let part = part_of(&file, words.number_of(first), words.number_of(second));
            show(rt, part)
        }
        "from" => {
            let bytes = bytes_from(&file, words.number_of(of));
            show(rt, bytes.map(|bytes| bytes.len()))
        }
        _ => {
            let tag = if of.is_empty() {
                0
            } else {
                words.number_of(of)
            };
            show_by_entries(rt, &file, question, tag)
        }
    }
}

fn show_by_entries(rt: &HostRuntime, file: &File<'_>, question: &str, tag: i64) -> Shown {
    let entries = match dynamic_table(file) {
        Ok(Some(entries)) => entries,
        Ok(None) => return Ok(print!(rt; "no entries")?),
        Err(error) => return Ok(print!(rt; "{error:?}, {error}")?),
    };
    match question {
        "value" => Ok(print!(rt; "{:?}", value(&entries, tag))?),
        "required" => show(rt, required(&entries, tag)),
        "values" => show_lines(rt, values(&entries, tag)),
        "strings" => show(rt, string_part(file, &entries)),
        "name" => show(rt, name_by(file, &entries, tag)),
        "count" => show(rt, symbol_count(file, &entries)),
        _ => show(rt, symbol_part(file, &entries)),
    }
}

fn name_by<'a>(
    file: &'a File<'_>,
    entries: &DynamicTable<'_, AnyEndian>,
    tag: i64,
) -> Result<Option<&'a [u8]>, DynamicError> {
    let strings = StringTable::new(strings(file, entries)?);
    name_of(&TerminatedStrings::new(&strings), entries, tag)
}
