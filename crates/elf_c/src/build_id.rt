//! The build id of a file.
ghost use Rattle.std.specs.Prelude.{◌≡◌};
ghost use Rattle.elf_tools.specs.BuildId.{build_id};
ghost use Rattle.elf_c.specs.Loaded.{loaded_of_c};
ghost use Rattle.elf_c.specs.Status.{IsWrittenIf, read_status};
ghost use Rattle.elf_c.specs.Tables.{found_bytes, no_bytes_in};

use crate::file::NugwierFile;
use crate::status::{NugwierStatus, done, unread};
use crate::strings::NugwierFoundBytes;
use elf_parts::endian::AnyEndian;
use elf_tools::build_id::build_id;

/// Finds the build id of a file: the first among the notes of its segments of type `PT_NOTE` or, if these have none, of
/// its sections of type `SHT_NOTE`. If there is none, `found` is false, and nothing else is written. An error leaves
/// `id` as it is; the errors are those of `elf_tools::build_id`.
#[unsafe(no_mangle)]
pub extern "C" fn nugwier_build_id<'data>(
    file: &'data NugwierFile<'data>,
    id: &mut NugwierFoundBytes<'data>,
) -> NugwierStatus
    ensures status { result ≡ read_status (build_id (loaded_of_c file.now)) }
    ensures id { IsWrittenIf found_bytes no_bytes_in id.new id.old (build_id (loaded_of_c file.now)) }
{
    match build_id::<AnyEndian, _>(file) {
        Ok(Some(bytes)) => {
            *id = NugwierFoundBytes { found: true, bytes };
            done()
        }
        Ok(None) => {
            id.found = false;
            done()
        }
        Err(error) => unread(&error),
    }
}
