//! The fields of headers: text with spaces after it.
ghost use Rattle.std.specs.Prelude.{◌≡◌, position};
ghost use Rattle.std.specs.Option.{option_map};
ghost use Rattle.elf_archive.specs.Fields.{decimal_in, is_digit, is_newline, long_name, place_in, trimmed, with_digit};
ghost use Rattle.elf_archive.specs.Fields.{without_slash};

/// Returns the bytes without those at their end that fill the field.
pub(crate) fn trimmed(fill: u8, field: &[u8]) -> &[u8]
    ensures { result.now ≡ trimmed fill field.now }
{
    let mut end = field.len();
    while end > 0 && field[end - 1] == fill {
        end -= 1;
    }
    &field[..end]
}

/// Returns the number that decimal digits spell.
pub(crate) fn decimal_in(digits: &[u8]) -> Option<u64>
    ensures { result ≡ decimal_in digits.now }
{
    if digits.is_empty() {
        return None;
    }
    let mut number = Some(0);
    for digit in digits {
        number = with_digit(number, *digit);
    }
    number
}

// A number with one more digit after it.
fn with_digit(number: Option<u64>, digit: u8) -> Option<u64>
    ensures { result ≡ with_digit number digit }
{
    let number = number?;
    if !is_digit(digit) {
        return None;
    }
    let place = number.checked_mul(10)?;
    place.checked_add((digit - b'0') as u64)
}

fn is_digit(byte: u8) -> bool
    ensures { result ≡ is_digit byte }
{
    (b'0'..=b'9').contains(&byte)
}

/// Returns a name without the slash that ends it.
pub(crate) fn without_slash(name: &[u8]) -> &[u8]
    ensures { result.now ≡ without_slash name.now }
{
    if name.ends_with(b"/") {
        &name[..name.len() - 1]
    } else {
        name
    }
}

/// Returns the place of a long name, which a field gives after the slash that begins it. GNU ar leaves a slash at the end
/// of the field if the name has fifteen bytes.
pub(crate) fn place_in(field: &[u8]) -> Option<u64>
    ensures { result ≡ place_in field.now }
{
    decimal_in(trimmed(b' ', without_slash(field.get(1..)?)))
}

// The place of the end of the first line.
fn line_end(bytes: &[u8]) -> Option<usize>
    ensures { result ≡ position is_newline bytes.now }
{
    bytes.iter().position(|byte| *byte == b'\n')
}

/// Returns the name that begins at a place of the member of long names.
pub(crate) fn long_name(names: &[u8], place: u64) -> Option<&[u8]>
    ensures { option_map (λ name. name.now) result ≡ long_name names.now place }
{
    let from = names.get(place as usize..)?;
    let end = line_end(from)?;
    Some(without_slash(&from[..end]))
}
