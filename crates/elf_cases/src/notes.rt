//! Notes.
use crate::row_words::Words;
use crate::shown::{Shown, show};
use elf::endian::EndianParse;
use elf::note::{Note, NoteIterator};

/// `notes ORDER CLASS ALIGNMENT BYTES`: the notes, those of no known kind with their names as text.
pub(crate) fn show_notes(rt: &HostRuntime, words: &mut Words<'_>) -> Shown {
    let order = words.order();
    let class = words.class();
    let align = words.number();
    let data = words.bytes(rt);
    show_all(rt, NoteIterator::new(order, class, align, data.as_slice()))
}

pub(crate) fn show_all<E: EndianParse>(rt: &HostRuntime, notes: NoteIterator<'_, E>) -> Shown {
    for note in notes {
        print!(rt; "\n    {note:?}")?;
        if let Note::Unknown(any) = &note {
            print!(rt; " ")?;
            show(rt, any.name_str())?;
        }
    }
    Ok(())
}
