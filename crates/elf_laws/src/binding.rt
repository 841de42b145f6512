//! Which of two objects a reference binds to.
ghost use Rattle.std.specs.Prelude.{◌≡◌, ℕ, List, [], ◌∷◌, Ok, Err, None, Some};
ghost use Rattle.elf_linking.specs.Binding.{VersionedObject, ChosenAt, IsBinding, unreadable};
ghost use Rattle.elf_linking.specs.Binding.{IsBindingFor, IsChosenFor};
ghost use Rattle.elf_linking.specs.declared.ReferenceKind.TheVariants.{Address, Copied};
ghost use Rattle.elf_linking.specs.declared.Wanted.{Wanted};
ghost use Rattle.elf_records.specs.declared.symbol.Symbol.{Symbol};

/// Of two objects the second is bound to if none in the first serves, and the first if both have one. An object of
/// which it is not known stops the look-up.
pub fn bound_in_two()
    ensures second { (one two : VersionedObject) (name : List ℕ) (wanted : Wanted) (found : ℕ × Symbol)
        → ChosenAt (λ object. object) (one ∷ two ∷ []) name wanted 0 (Ok None)
        → ChosenAt (λ object. object) (one ∷ two ∷ []) name wanted 1 (Ok (Some found))
        → IsBinding (λ object. object) (one ∷ two ∷ []) name wanted (Ok (Some (1, found.0, found.1))) }
    ensures first { (one two : VersionedObject) (name : List ℕ) (wanted : Wanted) (found : ℕ × Symbol)
        → ChosenAt (λ object. object) (one ∷ two ∷ []) name wanted 0 (Ok (Some found))
        → IsBinding (λ object. object) (one ∷ two ∷ []) name wanted (Ok (Some (0, found.0, found.1))) }
    ensures unreadable { (one two : VersionedObject) (name : List ℕ) (wanted : Wanted) (symbol : ℕ)
        → ChosenAt (λ object. object) (one ∷ two ∷ []) name wanted 0 (Err (unreadable symbol))
        → IsBinding (λ object. object) (one ∷ two ∷ []) name wanted (Err (record { object = 0; symbol = symbol })) }
    ensures missing { (one two : VersionedObject) (name : List ℕ) (wanted : Wanted)
        → ChosenAt (λ object. object) (one ∷ two ∷ []) name wanted 0 (Ok None)
        → ChosenAt (λ object. object) (one ∷ two ∷ []) name wanted 1 (Ok None)
        → IsBinding (λ object. object) (one ∷ two ∷ []) name wanted (Ok None) }
{}

/// A copy passes over the first object, the program, and other references do not.
pub fn bound_by_a_copy()
    ensures copy { (one two : VersionedObject) (name : List ℕ) (wanted : Wanted) (found : ℕ × Symbol)
        → IsChosenFor Copied two name wanted (Ok (Some found))
        → IsBindingFor (λ object. object) (one ∷ two ∷ []) name wanted Copied (Ok (Some (1, found.0, found.1))) }
    ensures address { (one two : VersionedObject) (name : List ℕ) (wanted : Wanted) (found : ℕ × Symbol)
        → IsChosenFor Address one name wanted (Ok (Some found))
        → IsBindingFor (λ object. object) (one ∷ two ∷ []) name wanted Address (Ok (Some (0, found.0, found.1))) }
{}
