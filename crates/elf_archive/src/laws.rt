//! What the list of members is, without a count of steps.
ghost use Rattle.std.specs.Prelude.{◌≡◌, ◌<◌, ◌≤◌, Bool, List, [], drop, length, ℕ};
ghost use Rattle.elf_archive.specs.Archive.{entry_in, items_from, with_entry};

/// From an offset in the archive on, the members are the one that the entry there is, if it is one, and those from the
/// next entry on, or the error. After the end there is none.
pub fn each_entry_leads_to_the_next()
    ensures next { (is_thin : Bool) (bytes names : List ℕ) (o : ℕ) → o < length bytes → items_from is_thin bytes names o
        ≡ with_entry is_thin o names (entry_in is_thin o names (drop o bytes)) (items_from is_thin bytes) }
    ensures end { (is_thin : Bool) (bytes names : List ℕ) (o : ℕ) → length bytes ≤ o → items_from is_thin bytes names o
        ≡ [] }
{}
