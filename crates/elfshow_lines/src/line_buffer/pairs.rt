//! Two hexadecimal digits for each byte.
ghost use Rattle.std.specs.Prelude.{◌≡◌, ◌<◌, ◌≤◌, ◌*◌, ◌/◌, ◌%◌, [], ◌∷◌, false, length, map, take};
ghost use Rattle.std.specs.List.{flat_map};
ghost use Rattle.std.specs.Fmt.{digit_glyph};
ghost use lib.Lanes.{Each1};
ghost use Rattle.elfshow_lines.specs.Pieces.{hex_of};

use std::simd::prelude::*;

// How many bytes get their digits at once.
pub(super) const BLOCK: usize = 16;

/// Fills `room` with two digits for each byte. The last block of bytes may overlap the one before it: what both have
/// gets the same digits twice.
#[inline(always)]
pub(super) fn fill_pairs(bytes: &[u8], room: &mut [u8])
    requires { length room.old ≡ 2 * length bytes.now }
    ensures { room.new ≡ hex_of bytes.now }
{
    let Some(last) = bytes.last_chunk() else {
        fill_few(bytes, room);
        return;
    };
    let (blocks, rest) = bytes.as_chunks();
    fill_blocks(blocks, room);
    if !rest.is_empty() {
        pairs_of_block(last).copy_to_slice(&mut room[2 * bytes.len() - 2 * BLOCK..]);
    }
}

// The same for fewer bytes than a block has. They get their digits before those of bytes of 0, which are not kept.
#[inline(never)]
fn fill_few(bytes: &[u8], room: &mut [u8])
    requires few { length bytes.now < BLOCK }
    requires double { length room.old ≡ 2 * length bytes.now }
    ensures { room.new ≡ hex_of bytes.now }
{
    let mut block = [0; BLOCK];
    block[..bytes.len()].copy_from_slice(bytes);
    let digits = pairs_of_block(&block).to_array();
    room.copy_from_slice(&digits[..2 * bytes.len()]);
}

// Fills the front of the room with the digits of the blocks.
#[inline(always)]
fn fill_blocks(blocks: &[[u8; BLOCK]], room: &mut [u8])
    requires { 2 * BLOCK * length blocks.now ≤ length room.old }
    ensures same { length room.new ≡ length room.old }
    ensures front { take (2 * BLOCK * length blocks.now) room.new ≡ flat_map hex_of blocks.now }
{
    for (i, block) in blocks.iter().enumerate() {
        pairs_of_block(block).copy_to_slice(&mut room[2 * BLOCK * i..]);
    }
}

/// Two digits for each byte of a block.
#[inline(always)]
pub(super) fn pairs_of_block(block: &[u8; BLOCK]) -> u8x32
    ensures { result ≡ hex_of block.now }
{
    lane_digits(halves(block))
}

// The places of the upper halves, which come first, and of the lower ones, by turns.
const BY_TURNS: [usize; 2 * BLOCK] = [
    0, 16, 1, 17, 2, 18, 3, 19, 4, 20, 5, 21, 6, 22, 7, 23, 8, 24, 9, 25, 10, 26, 11, 27, 12, 28,
    13, 29, 14, 30, 15, 31,
];

// The upper and the lower four bits of each byte.
#[inline(always)]
fn halves(bytes: &[u8; BLOCK]) -> u8x32
    ensures { result ≡ flat_map (λ byte. byte / 16 ∷ byte % 16 ∷ []) bytes.now }
{
    let bytes = u8x16::from_array(*bytes);
    let upper = bytes >> u8x16::splat(4);
    let lower = bytes & u8x16::splat(15);
    upper.shuffle(lower, BY_TURNS)
}

// The digit of each number.
#[inline(always)]
fn lane_digits(numbers: u8x32) -> u8x32
    requires { Each1 (λ n. n < 16) numbers }
    ensures { result ≡ map (digit_glyph false) numbers }
{
    let are_letters = numbers.simd_gt(u8x32::splat(9));
    let gaps = are_letters.select(u8x32::splat(b'a' - b'0' - 10), u8x32::splat(0));
    numbers + u8x32::splat(b'0') + gaps
}
