// The compression of one block (FIPS 180-4, section 6.2.2): sixteen words of the schedule are kept at a time.
ghost use Rattle.std.specs.Prelude.{◌≡◌, ◌+◌, ◌≤◌, length, drop};
ghost use Rattle.sha256.specs.Bytes.{number_at};
ghost use Rattle.sha256.specs.Block.{T1, T2, round as round_of, sums as sums_of, compress as compress_of};
ghost use Rattle.sha256.specs.Hash.{words};
ghost use Rattle.sha256.specs.Inner.{shifted, shifted_by, rounds_from};

use crate::{bytes, word};

const K: [u32; 64] = [
    0x428a2f98, 0x71374491, 0xb5c0fbcf, 0xe9b5dba5, 0x3956c25b, 0x59f111f1, 0x923f82a4, 0xab1c5ed5,
    0xd807aa98, 0x12835b01, 0x243185be, 0x550c7dc3, 0x72be5d74, 0x80deb1fe, 0x9bdc06a7, 0xc19bf174,
    0xe49b69c1, 0xefbe4786, 0x0fc19dc6, 0x240ca1cc, 0x2de92c6f, 0x4a7484aa, 0x5cb0a9dc, 0x76f988da,
    0x983e5152, 0xa831c66d, 0xb00327c8, 0xbf597fc7, 0xc6e00bf3, 0xd5a79147, 0x06ca6351, 0x14292967,
    0x27b70a85, 0x2e1b2138, 0x4d2c6dfc, 0x53380d13, 0x650a7354, 0x766a0abb, 0x81c2c92e, 0x92722c85,
    0xa2bfe8a1, 0xa81a664b, 0xc24b8b70, 0xc76c51a3, 0xd192e819, 0xd6990624, 0xf40e3585, 0x106aa070,
    0x19a4c116, 0x1e376c08, 0x2748774c, 0x34b0bcb5, 0x391c0cb3, 0x4ed8aa4a, 0x5b9cca4f, 0x682e6ff3,
    0x748f82ee, 0x78a5636f, 0x84c87814, 0x8cc70208, 0x90befffa, 0xa4506ceb, 0xbef9a3f7, 0xc67178f2,
];

fn t1(k: u32, w: u32, e: u32, f: u32, g: u32, h: u32) -> u32
    ensures { result ≡ T1 k w e f g h }
{
    h.wrapping_add(word::big_sigma1(e))
        .wrapping_add(word::ch(e, f, g))
        .wrapping_add(k)
        .wrapping_add(w)
}

fn t2(a: u32, b: u32, c: u32) -> u32
    ensures { result ≡ T2 a b c }
{
    word::big_sigma0(a).wrapping_add(word::maj(a, b, c))
}

// One round on the working variables v, with K_t and W_t.
fn round(v: [u32; 8], k: u32, w: u32) -> [u32; 8]
    ensures { result ≡ round_of k w v }
{
    let [a, b, c, d, e, f, g, h] = v;
    let x = t1(k, w, e, f, g, h);
    let y = t2(a, b, c);
    [x.wrapping_add(y), a, b, c, d.wrapping_add(x), e, f, g]
}

// Rounds t to t + 15, whose words of the schedule are w. Written out: with a loop of single rounds the hash takes 18 % longer.
fn sixteen_rounds(k: &[u32; 64], t: usize, w: [u32; 16], v: [u32; 8]) -> [u32; 8]
    requires { t ≤ 48 }
    ensures { result ≡ rounds_from 16 k.now t w v }
{
    let v1 = round(v, k[t + 0], w[0]);
    let v2 = round(v1, k[t + 1], w[1]);
    let v3 = round(v2, k[t + 2], w[2]);
    let v4 = round(v3, k[t + 3], w[3]);
    let v5 = round(v4, k[t + 4], w[4]);
    let v6 = round(v5, k[t + 5], w[5]);
    let v7 = round(v6, k[t + 6], w[6]);
    let v8 = round(v7, k[t + 7], w[7]);
    let v9 = round(v8, k[t + 8], w[8]);
    let v10 = round(v9, k[t + 9], w[9]);
    let v11 = round(v10, k[t + 10], w[10]);
    let v12 = round(v11, k[t + 11], w[11]);
    let v13 = round(v12, k[t + 12], w[12]);
    let v14 = round(v13, k[t + 13], w[13]);
    let v15 = round(v14, k[t + 14], w[14]);
    let v16 = round(v15, k[t + 15], w[15]);
    v16
}

// Sixteen words of the schedule, moved on by one word. Written out, as the definition `shifted` is.
fn slide(w: [u32; 16]) -> [u32; 16]
    ensures { result ≡ shifted w }
{
    let next = word::small_sigma1(w[14])
        .wrapping_add(w[9])
        .wrapping_add(word::small_sigma0(w[1]))
        .wrapping_add(w[0]);
    [
        w[1], w[2], w[3], w[4], w[5], w[6], w[7], w[8], w[9], w[10], w[11], w[12], w[13], w[14],
        w[15], next,
    ]
}

// The sixteen words of the schedule after w.
fn next_sixteen(w: [u32; 16]) -> [u32; 16]
    ensures { result ≡ shifted_by 16 w }
{
    let mut w = w;
    for _ in 0..16u32 {
        let next = slide(w);
        w = next;
    }
    w
}

fn sums(x: [u32; 8], y: [u32; 8]) -> [u32; 8]
    ensures { result ≡ sums_of x y }
{
    let mut sum = x;
    for i in 0..8 {
        sum[i] = x[i].wrapping_add(y[i]);
    }
    sum
}

// The hash value h after one more block, whose words are m.
pub fn compress(h: [u32; 8], m: [u32; 16]) -> [u32; 8]
    ensures { result ≡ compress_of h m }
{
    let mut w = m;
    let mut v = h;
    for group in 0..4 {
        let variables = sixteen_rounds(&K, 16 * group, w, v);
        v = variables;
        if group < 3 {
            let words = next_sixteen(w);
            w = words;
        }
    }
    sums(v, h)
}

// The sixteen words of a block.
pub fn words_of(block: &[u8; 64]) -> [u32; 16]
    ensures { result ≡ words 16 block.now }
{
    let mut w = [0u32; 16];
    for t in 0..16 {
        w[t] = bytes::u32_at(block, 4 * t);
    }
    w
}
