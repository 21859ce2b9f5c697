// The hash value of a message: through its whole blocks, and through the padding to the hash.
ghost use Rattle.std.specs.Prelude.{◌≡◌, ℕ, ◌+◌, ◌/◌, ◌%◌, ◌^◌, ◌<◌, List, ◌++◌, length, if◌then◌else◌, nat_lt};
ghost use Rattle.sha256.specs.Hash.{sha256, hash_value};
ghost use Rattle.sha256.specs.Inner.{rest as rest_of};

use crate::{block, bytes, stream};

// The hash value after the whole blocks of s.
pub fn whole_blocks(h: [u32; 8], s: &[u8]) -> [u32; 8]
    ensures { (m : List ℕ) → length m % 64 ≡ 0 → h ≡ hash_value (length m / 64) m
        → result ≡ hash_value ((length m + length s.now) / 64) (m ++ s.now) }
{
    let mut state = h;
    let (blocks, _) = s.as_chunks::<64>();
    for block in blocks {
        let next = block::compress(state, block::words_of(block));
        state = next;
    }
    state
}

// The hash of a message of `total` bytes (modulo 2^64), from the hash value of its whole blocks and the bytes after them.
pub fn close(state: [u32; 8], rest: &[u8], total: u64) -> [u8; 32]
    requires { length rest.now < 64 }
    ensures { (m : List ℕ) → state ≡ hash_value (length m / 64) m → rest.now ≡ rest_of m
        → total ≡ length m % 2 ^ 64 → result ≡ sha256 m }
{
    let at = rest.len();
    let mut block = [0u8; 64];
    bytes::put(&mut block, 0, rest);
    block[at] = 0x80;
    let mut h = state;
    // Where the length's eight bytes do not fit behind the first byte of padding, they stand in a block of their own.
    let full = 56 <= at;
    if full {
        let next = block::compress(h, block::words_of(&block));
        h = next;
        block = [0u8; 64];
    }
    bytes::put(&mut block, 56, &bytes::be8(total.wrapping_mul(8)));
    stream::digest(block::compress(h, block::words_of(&block)))
}
