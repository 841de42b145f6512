//! The hash of a name in a GNU hash section, eight bytes at once.
ghost use Rattle.std.specs.Prelude.{◌≡◌, ◌<◌, take};
ghost use Rattle.elf_parts.specs.Hash.{gnu_hash_from, gnu_hash_of};

// The hash continued over the bytes, one by one.
fn hash_bytes(start: u32, bytes: &[u8]) -> u32
    ensures { result ≡ gnu_hash_from start bytes.now }
{
    let mut hash = start;
    for byte in bytes {
        hash = hash.wrapping_mul(33).wrapping_add(u32::from(*byte));
    }
    hash
}

// Every second byte of a word.
const EVEN_BYTES: u64 = 0x00ff_00ff_00ff_00ff;

// Every second pair of bytes.
const EVEN_PAIRS: u64 = 0x0000_ffff_0000_ffff;

// The lower four bytes.
const LOW_HALF: u64 = 0xffff_ffff;

// The hash continued over eight bytes at once. Neighbours are joined, all in one word: bytes to pairs, pairs to fours,
// and the two fours. The factors are powers of 33, that of the hash modulo 2^32. Byte by byte, each step would wait for
// the one before it.
#[tactic(auto, using(crate::proofs::Hashing::eight_at_once))]
fn hash_eight(hash: u32, bytes: &[u8; 8]) -> u32
    ensures { result ≡ gnu_hash_from hash bytes.now }
{
    let word = u64::from_le_bytes(*bytes);
    let pairs = 33 * (word & EVEN_BYTES) + ((word >> 8) & EVEN_BYTES);
    let fours = 1_089 * (pairs & EVEN_PAIRS) + ((pairs >> 16) & EVEN_PAIRS);
    let eight = 1_185_921 * (fours & LOW_HALF) + (fours >> 32);
    hash.wrapping_mul(1_954_312_449)
        .wrapping_add((eight & LOW_HALF) as u32)
}

// The hash of an empty name, from which that of each name starts.
const START: u32 = 5381;

// Where a name after bytes of 0 starts: from the hash at index n, 8 - n bytes of 0 lead to `START`.
const STARTS: [u32; 8] = [
    3_048_333_317,
    1_810_751_653,
    3_920_229_701,
    518_561_253,
    4_227_619_461,
    2_072_488_741,
    3_967_619_013,
    2_082_408_549,
];

// The hash of the first `count` of eight bytes. They are moved past bytes of 0, and all eight are taken at once: a
// loop over them would run another number of times for each name, which a processor predicts badly.
#[tactic(auto, using(crate::proofs::Hashing::head_at_once), unfolding(crate::specs::Hash::gnu_hash_of))]
fn hash_head(eight: &[u8; 8], count: usize) -> u32
    requires { count < 8 }
    ensures { result ≡ gnu_hash_of (take count eight.now) }
{
    let word = u64::from_le_bytes(*eight);
    let behind_zeros = (word << (56 - 8 * count)) << 8;
    hash_eight(STARTS[count], &behind_zeros.to_le_bytes())
}

/// Returns the hash of a name, given without its 0 byte, in a GNU hash section: 32 bits.
///
/// ```rust
/// println!(rt; "{:#x}", gnu_hash(b"printf"))?; // 0x156b2bb8
/// ```
#[tactic(auto, unfolding(crate::specs::Hash::gnu_hash_of))]
pub fn gnu_hash(name: &[u8]) -> u32
    ensures { result ≡ gnu_hash_of name.now }
{
    let Some(first) = name.first_chunk() else {
        return hash_bytes(START, name);
    };
    let (head, blocks) = name.as_rchunks();
    let mut hash = hash_head(first, head.len());
    for block in blocks {
        hash = hash_eight(hash, block);
    }
    hash
}
