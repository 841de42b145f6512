//! Members of archives.
use crate::row_words::Words;
use crate::shown::{Shown, text};
use elf_archive::archive::{ArchiveError, Member, members_of};

/// `archive BYTES`: the members, each with the offset of its header and its content, and the error that ends them.
pub(crate) fn show_archive(rt: &HostRuntime, words: &mut Words<'_>) -> Shown {
    let data = words.bytes(rt);
    match members_of(data.as_slice()) {
        Ok(members) => {
            for member in members {
                print!(rt; "\n    ")?;
                show_member(rt, member)?;
            }
            Ok(())
        }
        Err(error) => Ok(print!(rt; "{error:?}, {error}")?),
    }
}

fn show_member(rt: &HostRuntime, member: Result<Member<'_>, ArchiveError>) -> Shown {
    match member {
        Ok(member) => {
            print!(rt; "{:?} at {}: ", text(member.name), member.offset)?;
            match member.bytes {
                Some(bytes) => print!(rt; "{:?}", text(bytes))?,
                None => print!(rt; "elsewhere")?,
            }
        }
        Err(error) => print!(rt; "{error:?}, {error}")?,
    }
    Ok(())
}
