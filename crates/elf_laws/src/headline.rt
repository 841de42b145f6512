//! The promises of the library on one page.
ghost use Rattle.elf_laws.specs.Headline.{Headline};

use crate::one_fault_of_a_file;
use crate::written::written_files_are_opened;
use elf::endian::EndianParse;
use elf::laws::lists::list_is_what_get_gives;
use elf::laws::tables::PlainRecord;
use elf::laws::written::records_are_read_back;
use elf::readers::{calls_answer_alike, part_answers_as_whole};
use elf_hash_check::hashcheck::laws::{gnu_find_on_sound, one_first_fault, sysv_find_on_sound};
use elfshow::readers::texts_are_the_same;

/// States what the library promises, for a type of byte orders, a record type without a version field, and the bytes of
/// a hash section: the members of `Headline`, with a sentence each. They follow from the laws of the libraries and the
/// definitions. They say what the contracts say of one call, of lists of calls and of both readers together.
pub fn headline<E: EndianParse, P: PlainRecord>(section: &[u8])
    ensures { Headline E.little E.of_byte P.reads section.now }
{
    records_are_read_back();
    written_files_are_opened::<E>();
    list_is_what_get_gives::<P>();
    calls_answer_alike::<E>();
    part_answers_as_whole::<E>();
    texts_are_the_same::<E>();
    gnu_find_on_sound(section);
    sysv_find_on_sound(section);
    one_first_fault();
    one_fault_of_a_file();
}
