//! The versions of symbols that the words of a row give.
use crate::row_words::Words;
use elf::endian::AnyEndian;
use elf::file::Class;
use elf::gnu_symver::{SymbolVersionTable, VerDefIterator, VerNeedIterator, VersionIndexTable};
use elf::string_table::StringTable;

/// Records of versions, their number, and the strings of their names.
#[derive(Drop)]
struct Records {
    count: Option<u64>,
    bytes: Vec<u8>,
    strings: Vec<u8>,
}

impl Records {
    fn read(rt: &HostRuntime, words: &mut Words<'_>) -> Records {
        Records {
            count: count_of(words),
            bytes: words.bytes(rt),
            strings: words.bytes(rt),
        }
    }
}

fn count_of(words: &mut Words<'_>) -> Option<u64> {
    match words.word() {
        "-" => None,
        count => Some(words.number_of(count)),
    }
}

/// The bytes of version sections.
#[derive(Drop)]
pub(crate) struct VersionBytes {
    order: AnyEndian,
    class: Class,
    indexes: Vec<u8>,
    needs: Records,
    definitions: Records,
}

impl VersionBytes {
    /// Reads the words `INDEXES COUNT NEEDS STRINGS COUNT DEFINITIONS STRINGS`. The count `-` means no records at all.
    pub(crate) fn read(
        rt: &HostRuntime,
        order: AnyEndian,
        class: Class,
        words: &mut Words<'_>,
    ) -> VersionBytes {
        VersionBytes {
            order,
            class,
            indexes: words.bytes(rt),
            needs: Records::read(rt, words),
            definitions: Records::read(rt, words),
        }
    }

    pub(crate) fn table(&self) -> SymbolVersionTable<'_, AnyEndian> {
        SymbolVersionTable::new(
            VersionIndexTable::new(self.order, self.class, self.indexes.as_slice()),
            self.needs(),
            self.definitions(),
        )
    }

    fn needs(&self) -> Option<(VerNeedIterator<'_, AnyEndian>, StringTable<'_>)> {
        let records = &self.needs;
        let bytes = records.bytes.as_slice();
        let needs = VerNeedIterator::new(self.order, self.class, records.count?, 0, bytes);
        Some((needs, StringTable::new(records.strings.as_slice())))
    }

    fn definitions(&self) -> Option<(VerDefIterator<'_, AnyEndian>, StringTable<'_>)> {
        let records = &self.definitions;
        let bytes = records.bytes.as_slice();
        let definitions = VerDefIterator::new(self.order, self.class, records.count?, 0, bytes);
        Some((definitions, StringTable::new(records.strings.as_slice())))
    }
}
