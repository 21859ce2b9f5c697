// RFC 8554, section 4: one-time keys. A chain is kept in words from its first link to its last.
ghost use Rattle.std.specs.Prelude.{◌≡◌, ◌++◌, ◌+◌, ◌*◌, ◌≤◌, length, take};
ghost use Rattle.sha256.specs.Hash.{bytes as bytes_of};
ghost use Rattle.lms.specs.Types.{prefix as prefix_of};
ghost use Rattle.lms.specs.Ots.{chain as chain_of, secret as secret_of};
ghost use Rattle.lms.specs.Ots.{closed as closed_of, Cksm, ends_hash, K, text_hash};

use crate::place::Place;
use crate::sets::Rows;
use sha256::stream::Sha;
use sha256::{bytes, link, stream};

// k links of the chain behind p, the first numbered a.
fn chain(p: [u32; 6], a: usize, k: usize, x: [u32; 8]) -> [u32; 8]
    requires { a + k ≤ 255 }
    ensures { bytes_of result ≡ chain_of (take 22 (bytes_of p)) a k (bytes_of x) }
{
    let mut t = x;
    for j in 0..k {
        // Named first: the check does not take an array that a call lays straight over a local.
        let next = link::link(p, (a + j) as u8, t);
        t = next;
    }
    t
}

// Chain i of a key, run for k links from its secret string; `seed` is the seed's words.
pub fn opened(key: Place, seed: [u32; 8], i: u16, k: usize) -> [u8; 32]
    requires { k ≤ 255 }
    ensures { result ≡ chain_of (prefix_of key.id key.number i) 0 k
        (secret_of key.id (bytes_of seed) key.number i) }
{
    let p = key.prefix_words(i);
    let x = link::link(p, 255, seed);
    stream::digest(chain(p, 0, k, x))
}

// K of a key; `seed` is the seed's words.
pub fn public_hash(rows: &Rows, key: Place, seed: [u32; 8]) -> [u8; 32]
    ensures { result ≡ K rows.now.ots key.id (bytes_of seed) key.number }
{
    let p = rows.ots.p;
    let k = rows.last();
    let mut ends = Sha::begin(&key.prefix(0x8080));
    for i in 0..p {
        ends = ends.update(&opened(key, seed, i as u16, k));
    }
    ends.finish()
}

// Q: the hash of the text, with its randomizer.
pub fn text_hash(key: Place, c: &[u8], text: &[u8]) -> [u8; 32]
    ensures { result ≡ text_hash key.id key.number c.now text.now }
{
    sha256::hash3(&key.prefix(0x8181), c, text)
}

// Cksm of the text's hash s.
fn checksum(rows: &Rows, s: [u8; 32]) -> [u8; 2]
    ensures { result ≡ Cksm rows.now.ots s }
{
    let k = rows.last();
    let n = 256 / rows.ots.w;
    let mut sum: usize = 0;
    for i in 0..n {
        sum += k - rows.coef(&s, i);
    }
    bytes::be2((sum << rows.ots.ls) as u16)
}

// The text's hash s with its checksum, the string of the digits.
pub fn summed(rows: &Rows, s: [u8; 32]) -> [u8; 34]
    ensures { result ≡ s ++ Cksm rows.now.ots s }
{
    let mut d = [0u8; 34];
    bytes::put(&mut d, 0, &s);
    bytes::put(&mut d, 32, &checksum(rows, s));
    d
}

// Chain i of a key, run on for k links from the first 32 bytes of y, the first link numbered a.
fn closed(key: Place, i: u16, a: usize, k: usize, y: &[u8]) -> [u8; 32]
    requires { (a + k ≤ 255) × (32 ≤ length y.now) }
    ensures { result ≡ chain_of (prefix_of key.id key.number i) a k (take 32 y.now) }
{
    stream::digest(chain(key.prefix_words(i), a, k, link::words(y)))
}

// Kc from the text's hash t and the strings y[0] || .. || y[p-1] at the front of y.
pub fn candidate(rows: &Rows, key: Place, t: [u8; 32], y: &[u8]) -> [u8; 32]
    requires { 32 * rows.now.ots.p ≤ length y.now }
    ensures { result ≡ ends_hash rows.now.ots key.id key.number (closed_of rows.now.ots key.id key.number t y.now) }
{
    let p = rows.ots.p;
    let k = rows.last();
    let d = summed(rows, t);
    let mut ends = Sha::begin(&key.prefix(0x8080));
    for i in 0..p {
        let a = rows.coef(&d, i);
        ends = ends.update(&closed(key, i as u16, a, k - a, bytes::from(y, 32 * i)));
    }
    ends.finish()
}
