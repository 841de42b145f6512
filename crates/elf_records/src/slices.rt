//! Parts of slices that may be shorter than asked.
ghost use Rattle.std.specs.Prelude.{◌≡◌, drop, take};

/// Returns the bytes after the first ones, or none if there are not as many.
pub fn rest_of(count: usize, bytes: &[u8]) -> &[u8]
    ensures { result.now ≡ drop count bytes.now }
{
    match bytes.get(count..) {
        Some(rest) => rest,
        None => &[],
    }
}

/// Returns the first items, or all if there are not as many.
pub fn first_of<T>(count: usize, items: &[T]) -> &[T]
    ensures { result.now ≡ take count items.now }
{
    match items.get(..count) {
        Some(first) => first,
        None => items,
    }
}
