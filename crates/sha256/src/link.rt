// A hash of 55 bytes that is kept in words, for hash chains: 22 bytes that stay, a byte, and 32 bytes.
// 55 bytes are padded to one block, so a link costs one compression and moves no byte.
ghost use Rattle.std.specs.Prelude.{◌≡◌, ◌+◌, ◌*◌, ◌/◌, ◌%◌, ◌^◌, ◌++◌, take};
ghost use Rattle.sha256.specs.Bytes.{be};
ghost use Rattle.sha256.specs.Hash.{sha256, words as words_of, bytes as bytes_of};

use crate::{block, bytes, stream};

// The hash, as words, of the first 22 bytes of p, the byte j and the 32 bytes of x.
pub fn link(p: [u32; 6], j: u8, x: [u32; 8]) -> [u32; 8]
    ensures { bytes_of result ≡ sha256 (take 22 (bytes_of p) ++ be 1 j ++ bytes_of x) }
{
    let [p0, p1, p2, p3, p4, p5] = p;
    let [x0, x1, x2, x3, x4, x5, x6, x7] = x;
    let m = [
        whole(p0),
        whole(p1),
        whole(p2),
        whole(p3),
        whole(p4),
        numbered(p5, j, x0),
        join(x0, x1),
        join(x1, x2),
        join(x2, x3),
        join(x3, x4),
        join(x4, x5),
        join(x5, x6),
        join(x6, x7),
        join(x7, 0x80000000),
        0,
        440,
    ];
    block::compress(stream::initial(), m)
}

// The eight words of 32 bytes; a byte past the end counts as 0.
pub fn words(s: &[u8]) -> [u32; 8]
    ensures { result ≡ words_of 8 s.now }
{
    let mut w = [0u32; 8];
    for t in 0..8 {
        w[t] = bytes::u32_at(s, 4 * t);
    }
    w
}

// A word as it is: a proof knows that a word of an array has 32 bits where it is passed to a call, and not where it is copied.
fn whole(a: u32) -> u32
    ensures { result ≡ a % 2 ^ 32 }
{
    a
}

// The three low bytes of a word, and the high byte of the next.
fn join(a: u32, b: u32) -> u32
    ensures { result ≡ a % 2 ^ 24 * 256 + b / 2 ^ 24 % 256 }
{
    let [_, a1, a2, a3] = a.to_be_bytes();
    let [b0, _, _, _] = b.to_be_bytes();
    u32::from_be_bytes([a1, a2, a3, b0])
}

// The two high bytes of a word, the byte j, and the high byte of the next word.
fn numbered(a: u32, j: u8, b: u32) -> u32
    ensures { result ≡ a / 2 ^ 16 % 2 ^ 16 * 2 ^ 16 + j % 256 * 256 + b / 2 ^ 24 % 256 }
{
    let [a0, a1, _, _] = a.to_be_bytes();
    let [b0, _, _, _] = b.to_be_bytes();
    u32::from_be_bytes([a0, a1, j, b0])
}
