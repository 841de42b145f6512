//! The sections of a file that was checked, in order and by their names.
ghost use Rattle.std.specs.Prelude.{◌≡◌, IfSome, Ok, map};
ghost use Rattle.std.specs.Iterator.{YieldsFirstBy, item_count};
ghost use Rattle.std.specs.Option.{option_map};
ghost use Rattle.elf.specs.Answers.{section_header_by_name};

use super::WholeFile;
use super::section::WholeSection;
use elf::endian::EndianParse;
use elf::readers::sections_are_listed;

/// The sections of a file that was checked, in the order of their headers. After its first `None` it keeps returning
/// `None`.
#[derive(Debug, Drop)]
pub struct WholeSections<'w, 'a, 'data, E: EndianParse> {
    whole: &'w WholeFile<'a, 'data, E>,
    next: usize,
}

impl<'w, 'a, 'data, E: EndianParse> Iterator for WholeSections<'w, 'a, 'data, E> {
    type Item = WholeSection<'a, 'data, E>;

    ghost use Rattle.elf_check.specs.SectionViews.{section_view, sections_left};

    ghost next_gives = { YieldsFirstBy (section_view E.little) (sections_left E.little) };

    ghost remaining = { item_count (sections_left E.little) };

    fn next(&mut self) -> Option<WholeSection<'a, 'data, E>> {
        sections_are_listed(self.whole.file);
        if self.next >= self.whole.sections {
            return None;
        }
        match self.whole.section(self.next) {
            Some(section) => {
                self.next += 1;
                Some(section)
            }
            None => None,
        }
    }

    fn size_hint(&self) -> (usize, Option<usize>) {
        let left = self.len();
        (left, Some(left))
    }
}

impl<'w, 'a, 'data, E: EndianParse> ExactSizeIterator for WholeSections<'w, 'a, 'data, E> {
    fn len(&self) -> usize {
        self.whole.sections.saturating_sub(self.next)
    }
}

impl<'a, 'data, E: EndianParse> WholeFile<'a, 'data, E> {
    ghost use Rattle.elf_check.specs.SectionViews.{sections_left};
    ghost use Rattle.elf_check.specs.Whole.{section_file, section_header, whole_view};

    /// The sections in the order of their headers.
    pub fn sections(&self) -> WholeSections<'_, 'a, 'data, E>
        ensures { let whole = whole_view E.little self.now in
            sections_left E.little result ≡ map (λ header. (whole, header)) whole.sections }
    {
        WholeSections {
            whole: self,
            next: 0,
        }
    }

    /// The first section whose name has exactly the bytes of `name`, or `None` exactly if no section has the name.
    pub fn section_by_name(&self, name: &str) -> Option<WholeSection<'a, 'data, E>>
        ensures header { section_header_by_name (whole_view E.little self.now) name.now
            ≡ Ok (option_map section_header result) }
        ensures same { IfSome result (λ s. section_file E.little s ≡ whole_view E.little self.now) }
    {
        sections_are_listed(self.file);
        match self.file.section_header_by_name(name).unwrap() {
            Some(header) => Some(WholeSection::new(self.file, self.names, self.sections, header)),
            None => None,
        }
    }
}
