//! The names of a definition that was checked.
ghost use Rattle.std.specs.Prelude.{◌≡◌};
ghost use Rattle.std.specs.List.{AllByRecursion};
ghost use Rattle.std.specs.Iterator.{YieldsFirstBy, item_count};
ghost use Rattle.elf_parts.specs.gnu_symver.Table.{names_left};
ghost use Rattle.elf_check.specs.versions.Records.{IsText};
ghost use Rattle.elf_check.specs.inner.VersionProps.{AllText-prop};

use elf::endian::EndianParse;
use elf::gnu_symver::SymbolNamesIterator;

/// The names of a version. Each is text. After its first `None` it keeps returning `None`.
#[derive(Debug, Drop)]
pub struct WholeNames<'data, E: EndianParse> {
    names: SymbolNamesIterator<'data, E>,
    ghost text: { AllByRecursion IsText (names_left names) } by { AllText-prop (names_left names) },
}

impl<'data, E: EndianParse> WholeNames<'data, E> {
    ghost use Rattle.elf_check.specs.versions.Views.{bytes_of, texts_left};

    /// The names that an iterator has left to yield, which are all text.
    pub(super) fn new(names: SymbolNamesIterator<'data, E>) -> Self
        requires { AllByRecursion IsText (names_left names) }
        ensures { texts_left result ≡ bytes_of (names_left names.entry) }
    {
        WholeNames { names }
    }
}

impl<'data, E: EndianParse> Iterator for WholeNames<'data, E> {
    type Item = &'data str;

    ghost use Rattle.elf_check.specs.versions.Views.{texts_left};

    ghost next_gives = { YieldsFirstBy (λ text. text.now) texts_left };

    ghost remaining = { item_count texts_left };

    fn next(&mut self) -> Option<&'data str> {
        match self.names.next() {
            Some(name) => Some(name.unwrap()),
            None => None,
        }
    }
}
