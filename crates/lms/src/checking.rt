// RFC 8554, section 5.4.2: the candidate root of a signature, Algorithm 6a.
ghost use Rattle.std.specs.Prelude.{◌≡◌, true, ◌≤◌, length, take, drop};
ghost use Rattle.lms.specs.Check.{above as above_of, climb as climb_of, key_fits, signature_fits, root_of, check_of};

use crate::place::Place;
use crate::sets::Rows;
use crate::{onetime, tree};
use sha256::bytes;

// The node above a node, whose hash is t, from the node beside it.
fn above(node: Place, t: [u8; 32], beside: &[u8]) -> [u8; 32]
    ensures { result ≡ above_of node.id node.number t beside.now }
{
    let up = Place {
        number: node.number / 2,
        ..node
    };
    if node.number % 2 == 1 {
        tree::inner(up, beside, &t)
    } else {
        tree::inner(up, &t, beside)
    }
}

// The hash as many levels above a node, whose hash is t, along a path, as the tree is high.
fn climb(rows: &Rows, path: &[u8], node: Place, t: [u8; 32]) -> [u8; 32]
    ensures { result ≡ climb_of node.id path.now node.number t rows.now.lms.h }
{
    let h = rows.lms.h;
    let mut x = t;
    for i in 0..h {
        let way = Place {
            number: node.number >> i,
            ..node
        };
        let next = above(way, x, bytes::front(bytes::from(path, 32 * i), 32));
        x = next;
    }
    x
}

// Whether a key is of the set's types and length. Here and below a wrong length is refused before a byte is read.
fn key_fits(rows: &Rows, key: &[u8]) -> bool
    ensures { result ≡ key_fits rows.now.ots rows.now.lms key.now }
{
    if key.len() != 56 {
        return false;
    }
    (bytes::u32_at(key, 0) == rows.lms.lmstype) & (bytes::u32_at(key, 4) == rows.ots.otstype)
}

// Whether a signature is of the set's types, length and numbers.
fn signature_fits(rows: &Rows, s: &[u8]) -> bool
    ensures { result ≡ signature_fits rows.now.ots rows.now.lms s.now }
{
    if s.len() != rows.signature_size() {
        return false;
    }
    (bytes::u32_at(s, 4) == rows.ots.otstype)
        & ((bytes::u32_at(s, 8 + 32 * (rows.ots.p + 1)) == rows.lms.lmstype)
            & ((bytes::u32_at(s, 0) as usize) < (1 << rows.lms.h)))
}

// I out of a public key.
fn id_of(key: &[u8]) -> [u8; 16]
    requires { 24 ≤ length key.now }
    ensures { result ≡ take 16 (drop 8 key.now) }
{
    let mut id = [0u8; 16];
    bytes::put(&mut id, 0, bytes::front(bytes::from(key, 8), 16));
    id
}

// The candidate root from a key and a signature that fit the set.
fn root(rows: &Rows, key: &[u8], text: &[u8], s: &[u8]) -> [u8; 32]
    requires { (key_fits rows.now.ots rows.now.lms key.now ≡ true)
        × (signature_fits rows.now.ots rows.now.lms s.now ≡ true) }
    ensures { result ≡ root_of rows.now.ots rows.now.lms key.now text.now s.now }
{
    let id = id_of(key);
    let q = bytes::u32_at(s, 0);
    let used = Place { id, number: q };
    let leaf = Place {
        id,
        number: (1 << rows.lms.h) + q,
    };
    let t = onetime::text_hash(used, bytes::front(bytes::from(s, 8), 32), text);
    let k = onetime::candidate(rows, used, t, bytes::from(s, 40));
    let path = bytes::from(s, 12 + 32 * (rows.ots.p + 1));
    climb(rows, path, leaf, tree::leaf(leaf, k))
}

// The number that a valid signature used.
pub fn check(rows: &Rows, key: &[u8], text: &[u8], s: &[u8]) -> Option<u32>
    ensures { result ≡ check_of rows.now.ots rows.now.lms key.now text.now s.now }
{
    if !key_fits(rows, key) {
        return None;
    }
    if !signature_fits(rows, s) {
        return None;
    }
    let x = root(rows, key, text, s);
    if !bytes::same(&x, bytes::from(key, 24)) {
        return None;
    }
    Some(bytes::u32_at(s, 0))
}
