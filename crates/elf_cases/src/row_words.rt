//! The words of a row, read in order.
use crate::rows::{RowError, bytes_of, changed_file};
use elf::endian::AnyEndian;
use elf::file::Class;
use std::str::{FromStr, SplitWhitespace};

/// The words of a row that are still to be read, and the error of one that was wrong. A wrong word is read as a word of
/// no letters, 0 or no bytes, so that the functions that read continue; `end` returns its error.
#[derive(Drop)]
pub(crate) struct Words<'a> {
    left: &'a str,
    fault: Option<&'static str>,
}

impl<'a> Words<'a> {
    pub(crate) fn new(row: &'a str) -> Words<'a> {
        Words {
            left: row,
            fault: None,
        }
    }

    pub(crate) fn word(&mut self) -> &'a str {
        let (word, left) = self.left.split_once(' ').unwrap_or((self.left, ""));
        self.left = left;
        if word.is_empty() {
            self.refuse("too few words");
        }
        word
    }

    /// Whether no word is left.
    pub(crate) fn is_over(&self) -> bool {
        self.left.is_empty()
    }

    /// All words that are left.
    pub(crate) fn rest(&mut self) -> SplitWhitespace<'a> {
        let left = self.left;
        self.left = "";
        left.split_whitespace()
    }

    pub(crate) fn number<T: FromStr + Default>(&mut self) -> T
    where
        T::Err: Drop,
    {
        let word = self.word();
        self.number_of(word)
    }

    /// The number of a word that is a part of one.
    pub(crate) fn number_of<T: FromStr + Default>(&mut self, word: &str) -> T
    where
        T::Err: Drop,
    {
        match word.parse() {
            Ok(number) => number,
            Err(_) => {
                self.refuse("a number that is none");
                T::default()
            }
        }
    }

    pub(crate) fn class(&mut self) -> Class {
        let word = self.word();
        self.class_of(word)
    }

    pub(crate) fn class_of(&mut self, word: &str) -> Class {
        if word == "64" {
            return Class::ELF64;
        }
        if word != "32" {
            self.refuse("no class");
        }
        Class::ELF32
    }

    pub(crate) fn order(&mut self) -> AnyEndian {
        let word = self.word();
        if word == "big" {
            return AnyEndian::Big;
        }
        if word != "little" {
            self.refuse("no order");
        }
        AnyEndian::Little
    }

    pub(crate) fn bytes(&mut self, rt: &HostRuntime) -> Vec<u8> {
        let bytes = bytes_of(rt, self.word());
        self.read(rt, bytes)
    }

    /// The bytes of the small file with the changes up to the word `:`, or of all words that are left.
    pub(crate) fn file(&mut self, rt: &HostRuntime) -> Vec<u8> {
        let (file, left) = self.left.split_once(" : ").unwrap_or((self.left, ""));
        self.left = left;
        self.read(rt, changed_file(rt, file))
    }

    fn read(&mut self, rt: &HostRuntime, bytes: Result<Vec<u8>, RowError>) -> Vec<u8> {
        match bytes {
            Ok(bytes) => bytes,
            Err(_) => {
                self.refuse("bytes that cannot be read");
                Vec::new(rt.alloc())
            }
        }
    }

    /// Notes that the row is not as it has to be.
    pub(crate) fn refuse(&mut self, fault: &'static str) {
        self.fault = Some(fault);
    }

    /// Returns an error if a word of the row could not be read, or if a word is left.
    pub(crate) fn end(&self) -> Result<(), RowError> {
        match self.fault {
            Some(fault) => Err(RowError::Form(fault)),
            None if self.left.is_empty() => Ok(()),
            None => Err(RowError::Form("too many words")),
        }
    }
}

/// The field and the value of a word `FIELD=VALUE`.
pub(crate) fn field_of(word: &str) -> (&str, &str) {
    word.split_once('=').unwrap_or((word, ""))
}
