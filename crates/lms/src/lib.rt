// LMS signatures with SHA-256, RFC 8554. What is below the entry points works for each width and height of the RFC's tables. The entry
// points take the two types that a public key names, the LMS type first; a pair that is no set acts by rows of types that no set has.
// They answer 0, 17 and 21 as numbers, since these are the codes that C gets (include/kozbrax.h).
#![tactic(auto)]

ghost use Rattle.std.specs.Prelude.{◌≡◌};
ghost use Rattle.lms.specs.Sets.{ots_of, lms_of};
ghost use Rattle.lms.specs.Check.{check_of, is_valid as is_valid_of};
ghost use Rattle.lms.specs.Calls.{generate_code, generated, public_key_code, public_key_written, sign_code, signed};

mod checking;
mod onetime;
mod place;
mod sets;
mod signing;
mod tree;

use crate::place::Place;
use crate::sets::Rows;
use sha256::{bytes, link};

// RFC 8554, section 4.1: a row of Table 1, with n = 32.
#[derive(Clone, Copy)]
pub struct Ots {
    pub otstype: u32,
    pub w: usize,
    pub p: usize,
    pub ls: usize,
}

// RFC 8554, section 5.1: a row of Table 2, with m = 32.
#[derive(Clone, Copy)]
pub struct Lms {
    pub lmstype: u32,
    pub h: usize,
}

// Fills the first bytes of a lent buffer with the key's tree, nodes 1 to 2^(h+1) - 1: 0; what follows stays. 21 where the buffer is
// shorter, and nothing is written. The tree has 65,504 bytes for type 6; 1,135,614 compressions for types 6 and 3.
pub fn generate(lmstype: u32, otstype: u32, seed: [u8; 32], id: [u8; 16], nodes: &mut [u8]) -> u32
    ensures { (result ≡ generate_code (lms_of lmstype) nodes.old)
        × (nodes.new ≡ generated (ots_of otstype) (lms_of lmstype) id seed nodes.old) }
{
    let rows = Rows::of(lmstype, otstype);
    if nodes.len() < rows.tree_size() {
        return 21;
    }
    tree::grow(&rows, id, link::words(&seed), nodes);
    0
}

// Writes the 56 bytes of the public key of a tree: 0; what follows stays. 21 where the tree or the place is short, and nothing is written.
pub fn public_key(lmstype: u32, otstype: u32, id: [u8; 16], nodes: &[u8], key: &mut [u8]) -> u32
    ensures { (result ≡ public_key_code (lms_of lmstype) nodes.now key.old)
        × (key.new ≡ public_key_written (ots_of otstype) (lms_of lmstype) id nodes.now key.old) }
{
    let rows = Rows::of(lmstype, otstype);
    if nodes.len() < rows.tree_size() {
        return 21;
    }
    if key.len() < 56 {
        return 21;
    }
    bytes::put(key, 0, &bytes::be4(rows.lms.lmstype));
    bytes::put(key, 4, &bytes::be4(rows.ots.otstype));
    bytes::put(key, 8, &id);
    bytes::put(key, 24, bytes::front(nodes, 32));
    0
}

// Writes a text's signature straight into its place: 0; what follows stays. 21 where the tree or the place is short, then 17 where the
// number is 2^h or more, and nothing is written. The signature has 2,508 bytes for types 6 and 3, and takes 69 + d compressions for 54
// bytes of text, d the sum of the 67 digits.
pub fn sign(
    lmstype: u32,
    otstype: u32,
    seed: [u8; 32],
    id: [u8; 16],
    number: u32,
    randomizer: [u8; 32],
    text: &[u8],
    nodes: &[u8],
    place: &mut [u8],
) -> u32
    ensures { (result ≡ sign_code (ots_of otstype) (lms_of lmstype) number nodes.now place.old)
        × (place.new ≡ signed (ots_of otstype) (lms_of lmstype) id seed number randomizer
        text.now nodes.now place.old) }
{
    let rows = Rows::of(lmstype, otstype);
    if nodes.len() < rows.tree_size() {
        return 21;
    }
    if place.len() < rows.signature_size() {
        return 21;
    }
    if (1 << rows.lms.h) <= number {
        return 17;
    }
    let key = Place { id, number };
    signing::signature(
        &rows,
        key,
        link::words(&seed),
        randomizer,
        text,
        nodes,
        place,
    );
    0
}

// The number that a signature used, or None wherever RFC 8554 says INVALID. A key of a set is taken under its own two types alone. For
// types 6 and 3 1,062 - d compressions for 54 bytes of text, d the sum of the 67 digits.
pub fn check(lmstype: u32, otstype: u32, key: &[u8], text: &[u8], signature: &[u8]) -> Option<u32>
    ensures { result ≡ check_of (ots_of otstype) (lms_of lmstype) key.now text.now signature.now }
{
    checking::check(&Rows::of(lmstype, otstype), key, text, signature)
}

// Whether a check answered with a number.
pub fn is_valid(answer: Option<u32>) -> bool
    ensures { result ≡ is_valid_of answer }
{
    answer.is_some()
}
