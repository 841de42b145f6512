//! Laws of numbers.
ghost use Rattle.std.specs.Prelude.{◌≡◌, true, false, reverse};
ghost use Rattle.elf_records.specs.Number.{number};

/// The number that bytes spell in big order is the number that the reversed bytes spell in little order.
#[tactic(auto, using(crate::proofs::Numbers::big_number_reversed))]
pub fn big_is_little_reversed(bytes: &[u8])
    ensures { number false bytes.now ≡ number true (reverse bytes.now) }
{}
