//! Laws of the equality and the clones of the types of this crate: theorems for the proofs of callers. Each is the
//! contract of a function that does nothing; a caller uses the law by calling it.
ghost use Rattle.std.specs.Prelude.{◌≡◌, ◌↔◌, IsTrue};
ghost use Rattle.elf_records.specs.Clones.{ClonesExactly};
ghost use Rattle.elfshow.specs.Question.{question};

use crate::calls::Call;
use crate::show::{Mode, RequestError};

/// Two calls are equal exactly if they are the same call with the same index or, of `Name`, with the same bytes. Two modes
/// are equal exactly if they are the same mode, and two errors of a request if they are the same error.
pub fn equal_values()
    ensures call { (a b : Call) → IsTrue (⟦<Call<'static> as PartialEq>⟧.eq a b) ↔ (question a ≡ question b) }
    ensures mode { (a b : Mode) → IsTrue (⟦<Mode as PartialEq>⟧.eq a b) ↔ (a ≡ b) }
    ensures error { (a b : RequestError) → IsTrue (⟦<RequestError as PartialEq>⟧.eq a b) ↔ (a ≡ b) }
{}

/// The clone of a call, of a mode or of an error of a request is the same value, and cloning it cannot fail.
pub fn clones()
    ensures call { ClonesExactly ⟦<Call<'static> as Clone>⟧.is_clone ⟦<Call<'static> as Clone>⟧.is_infallible }
    ensures mode { ClonesExactly ⟦<Mode as Clone>⟧.is_clone ⟦<Mode as Clone>⟧.is_infallible }
    ensures error { ClonesExactly ⟦<RequestError as Clone>⟧.is_clone ⟦<RequestError as Clone>⟧.is_infallible }
{}
