//! Strings of a section.
ghost use Rattle.std.specs.Prelude.{◌↔◌, IsTrue};
ghost use Rattle.elf_check.specs.Strings.{IsEmptyOrEndsWithNul};

// Whether the last byte, if there is one, is 0.
pub(crate) fn ends_in_nul(bytes: &[u8]) -> bool
    ensures { IsTrue result ↔ IsEmptyOrEndsWithNul bytes.now }
{
    match bytes.last() {
        Some(last) => *last == 0,
        None => true,
    }
}
