// The answers that a user takes in: the servers', and made-up ones.
use crate::{case, step, work};
use exchange::{run, user_place};
use programs::{key, line};
use sha256::bytes;
use tree::{digest, message};

// One answer of the server that is asked, taken in.
pub fn turn(text: &[u8], work: &mut [u8]) {
    let mut space = [0u8; 2600];
    let n = run::asked(work::run(), 1, work, &mut space);
    take(text, n, &mut space, work);
}

// A made-up answer with code 0 to the request that was asked last, with the body that a line says, taken in.
pub fn made(text: &[u8], work: &mut [u8]) {
    let mut space = [0u8; 2600];
    let mut body = [0u8; 2560];
    let n = put_body(text, work, &mut body);
    let h = header(work);
    bytes::put2(&mut space, 0, &h, bytes::front(&body, n));
    take(text, n % 4096 + 10, &mut space, work);
}

// The header of an answer with code 0 to the request that was asked last.
fn header(work: &[u8]) -> [u8; 10] {
    let request = user_place::request_of(work);
    let server = bytes::byte_at(work, user_place::SERVER);
    message::answer_header(
        message::request_kind(request),
        server,
        message::request_position(request),
        message::request_level(request),
        0,
    )
}

// Writes the body that a line says to the front of d, and answers its length: 1 a head, 2 a hash, 3 an author and an entry, 4 a Record
// of the position that was asked for; else none.
fn put_body(text: &[u8], work: &[u8], d: &mut [u8]) -> usize {
    let what = case::number(text, 4);
    let a = case::number(text, 5);
    let b = case::number(text, 6);
    if what == 1 {
        return put_head(a, b, d);
    }
    if what == 2 {
        bytes::put(d, 0, &[(a % 256) as u8; 32]);
        return 32;
    }
    if what == 3 {
        return put_entry(a, b, case::number(text, 7), d);
    }
    if what == 4 {
        return put_record(text, work, d);
    }
    0
}

// A head of a position and a level.
fn put_head(p: u32, l: u32, d: &mut [u8]) -> usize {
    bytes::put2(d, 0, &bytes::be4(p), &[(l % 256) as u8]);
    5
}

// An author and an entry of a length.
fn put_entry(author: u32, length: u32, x: u32, d: &mut [u8]) -> usize {
    let e = entry(1, x);
    bytes::put2(d, 0, &bytes::be2((author % 65536) as u16), &e);
    2 + line::at_most(length, 1100)
}

// The Record by a user of the digest that a cover of equal hashes gives, signed with a number of the user's key.
fn put_record(text: &[u8], work: &[u8], d: &mut [u8]) -> usize {
    let a = (case::number(text, 5) % 256) as u8;
    let p = message::request_position(user_place::request_of(work));
    let hashes = [(case::number(text, 6) % 256) as u8; 1248];
    let digest = digest::cover_digest(&hashes, step::version(text, work), p);
    bytes::put2(d, 0, &bytes::be2(a as u16), &digest);
    let signed = message::signed_text(key::LOG, p, digest);
    put_signature(a, case::number(text, 7), &signed, work, d);
    2542
}

// A user's signature of a text with a number of its key, behind an author and a digest.
fn put_signature(a: u8, number: u32, text: &[u8], work: &[u8], d: &mut [u8]) {
    let mut signature = [0u8; 2508];
    let tree = key::tree_of(work::keys(work), a);
    lms::sign(
        6,
        3,
        [a; 32],
        [a; 16],
        number,
        [a; 32],
        text,
        tree,
        &mut signature,
    );
    bytes::put(d, 34, &signature);
}

// The longest entry: its first byte, the four bytes of a number, and the byte 7.
pub fn entry(first: u8, x: u32) -> [u8; 1100] {
    let mut e = [7u8; 1100];
    bytes::put2(&mut e, 0, &[first], &bytes::be4(x));
    e
}

// Takes in an answer of n bytes with the changes of a line, to a byte of it or to its length.
fn take(text: &[u8], n: usize, answer: &mut [u8], work: &mut [u8]) {
    let size = case::setting(text, 11, (n % 65536) as u32);
    case::patch(text, 100, answer);
    step::step(text, 0, 0, bytes::front(answer, size as usize), work);
}
