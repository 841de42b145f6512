//! Whether a text needs no escape, by blocks of 16, 8 or 4 bytes.
ghost use Rattle.std.specs.Prelude.{◌≡◌, ◌<◌, length, true};
ghost use Rattle.std.specs.List.{flat_map};
ghost use Rattle.elfshow_lines.specs.Pieces.{escaped_text, is_plain};

/// Whether no byte of a text needs an escape. The last block may overlap the one before it. Blocks of a known length
/// take fewer instructions than bytes.
pub(super) fn are_plain(bytes: &[u8]) -> bool
    ensures { result ≡ true → escaped_text bytes.now ≡ bytes.now }
{
    let Some(last) = bytes.last_chunk::<16>() else {
        return is_short_plain(bytes);
    };
    let (blocks, _) = bytes.as_chunks();
    are_blocks_plain::<16>(blocks) && is_block_plain(last)
}

// The same of a text of fewer than 16 bytes: of its first and its last 8.
#[inline(always)]
fn is_short_plain(bytes: &[u8]) -> bool
    requires { length bytes.now < 16 }
    ensures { result ≡ true → escaped_text bytes.now ≡ bytes.now }
{
    let (Some(first), Some(last)) = (bytes.first_chunk::<8>(), bytes.last_chunk::<8>()) else {
        return are_few_plain(bytes);
    };
    is_block_plain(first) && is_block_plain(last)
}

// The same of fewer than 8 bytes: of the first and the last 4.
#[inline(always)]
fn are_few_plain(bytes: &[u8]) -> bool
    requires { length bytes.now < 8 }
    ensures { result ≡ true → escaped_text bytes.now ≡ bytes.now }
{
    let (Some(first), Some(last)) = (bytes.first_chunk::<4>(), bytes.last_chunk::<4>()) else {
        return is_block_plain(bytes);
    };
    is_block_plain(first) && is_block_plain(last)
}

fn are_blocks_plain<const N: usize>(blocks: &[[u8; N]]) -> bool
    ensures { result ≡ true → flat_map escaped_text blocks.now ≡ flat_map (λ block. block) blocks.now }
{
    for block in blocks {
        if !is_block_plain(block) {
            return false;
        }
    }
    true
}

// Looks at each byte, whatever those before it are, so that a block of a known length takes no branches.
#[tactic(auto, using(crate::proofs::Escaping::plain_waits, std::proofs::lemmas::Grind::common_steps))]
#[inline(always)]
fn is_block_plain(bytes: &[u8]) -> bool
    ensures { result ≡ true → escaped_text bytes.now ≡ bytes.now }
{
    let mut plain = true;
    for byte in bytes {
        if !is_plain(*byte) {
            plain = false;
        }
    }
    plain
}

/// Whether a byte is a graphic character of ASCII other than the backslash, so that it needs no escape.
pub(super) fn is_plain(byte: u8) -> bool
    ensures { result ≡ is_plain byte }
{
    (0x21..=0x7e).contains(&byte) && byte != b'\\'
}
