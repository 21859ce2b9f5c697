// SHA-256 of a message that comes in parts: a state by value.
ghost use Rattle.std.specs.Prelude.{◌≡◌, ℕ, ◌/◌, ◌%◌, ◌^◌, List, ◌++◌, length};
ghost use Rattle.sha256.specs.Constants.{H0};
ghost use Rattle.sha256.specs.Hash.{sha256, hash_value, bytes as bytes_of};
ghost use Rattle.sha256.specs.Inner.{streamed};

use crate::{block, bytes, value};

// The hash value of the whole blocks taken in, the bytes after them with zeros behind, and the count of all bytes modulo 2^64.
#[derive(Clone, Copy)]
pub struct Sha {
    state: [u32; 8],
    block: [u8; 64],
    total: u64,
}

impl Sha {
    // The state after a message's first part.
    pub fn begin(first: &[u8]) -> Sha
        ensures { result ≡ streamed first.now }
    {
        absorb(initial(), first, first.len() as u64)
    }

    // The state after one more part.
    pub fn update(self, more: &[u8]) -> Sha
        ensures { (m : List ℕ) → self ≡ streamed m → result ≡ streamed (m ++ more.now) }
    {
        let Sha {
            state,
            mut block,
            total,
        } = self;
        let at = (total % 64) as usize;
        let count = total.wrapping_add(more.len() as u64);
        if more.len() < 64 - at {
            bytes::put(&mut block, at, more);
            return Sha {
                state,
                block,
                total: count,
            };
        }
        let k = 64 - at;
        bytes::put(&mut block, at, &more[..k]);
        let next = block::compress(state, block::words_of(&block));
        absorb(next, &more[k..], count)
    }

    // The hash of all parts.
    pub fn finish(self) -> [u8; 32]
        ensures { (m : List ℕ) → self ≡ streamed m → result ≡ sha256 m }
    {
        let Sha {
            state,
            block,
            total,
        } = self;
        let at = (total % 64) as usize;
        value::close(state, bytes::front(&block, at), total)
    }
}

// FIPS 180-4, section 5.3.3.
pub fn initial() -> [u32; 8]
    ensures { result ≡ H0 }
{
    [
        0x6a09e667, 0xbb67ae85, 0x3c6ef372, 0xa54ff53a, 0x510e527f, 0x9b05688c, 0x1f83d9ab,
        0x5be0cd19,
    ]
}

// The state after s, where `state` is the hash value of the whole blocks before it and `total` the count with s.
fn absorb(state: [u32; 8], s: &[u8], total: u64) -> Sha
    ensures { (m : List ℕ) → length m % 64 ≡ 0 → state ≡ hash_value (length m / 64) m
        → total ≡ length (m ++ s.now) % 2 ^ 64 → result ≡ streamed (m ++ s.now) }
{
    let next = value::whole_blocks(state, s);
    let whole = s.len() / 64 * 64;
    let mut block = [0u8; 64];
    bytes::put(&mut block, 0, &s[whole..]);
    Sha {
        state: next,
        block,
        total,
    }
}

// The bytes of a hash value.
pub fn digest(h: [u32; 8]) -> [u8; 32]
    ensures { result ≡ bytes_of h }
{
    let mut out = [0u8; 32];
    for (i, word) in h.iter().enumerate() {
        bytes::put(&mut out, 4 * i, &bytes::be4(*word));
    }
    out
}
