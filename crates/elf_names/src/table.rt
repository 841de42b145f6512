//! Tables of names.
ghost use Rattle.std.specs.Prelude.{◌≡◌};
ghost use Rattle.std.specs.List.{find};
ghost use Rattle.std.specs.Option.{option_copied, option_map};
ghost use Rattle.elf_abi.specs.Names.{name_of};
ghost use Rattle.elf_names.specs.Table.{rows_of};

/// Values, each with its name.
pub type Names<K> = &'static [(K, &'static str)];

/// Returns the name of a value: the first one that a table has for it, if there is any.
pub fn name_in<K: Ord + Copy>(names: &[(K, &'static str)], value: K) -> Option<&'static str>
    ensures { option_copied result ≡ name_of K.eq (rows_of names.now) value }
{
    match row_of(names, value) {
        Some(row) => Some(row.1),
        None => None,
    }
}

// The first row of a value.
fn row_of<'a, K: Ord + Copy>(
    names: &'a [(K, &'static str)],
    value: K,
) -> Option<&'a (K, &'static str)>
    ensures { option_map (λ row. row.now) result ≡ find (λ row. K.eq row.0 value) names.now }
{
    names.iter().find(|row| row.0 == value)
}
