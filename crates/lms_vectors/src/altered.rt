// A record with one field changed: each is refused.
use crate::{record, report};
use sha256::bytes;
use std::io;
use std::rt::Files;

// Reads an accepted record, with room for a byte more behind its key and its signature, and runs the changes below.
pub fn run(rt: &(impl Files + Print + Eprint), name: &str) -> io::Result<()> {
    let mut key = [0u8; 57];
    let mut signature = [0u8; 2509];
    let mut text = [0u8; 256];
    let n = record::fields(rt, name, ".txt", &mut key, &mut signature, &mut text)?;
    each(rt, &mut key, bytes::front(&text, n.third), &mut signature)
}

// The record with each change, and at last as it is.
fn each(rt: &impl Print, key: &mut [u8], text: &[u8], signature: &mut [u8]) -> io::Result<()> {
    lengths(rt, key, text, signature)?;
    key_fields(rt, key, text, signature)?;
    signature_fields(rt, key, text, signature)?;
    answered(rt, "nothing changed", key, text, signature)
}

// Key, signature and text that are too short or too long.
fn lengths(rt: &impl Print, key: &[u8], text: &[u8], signature: &[u8]) -> io::Result<()> {
    let k = bytes::front(key, 56);
    let s = bytes::front(signature, 2508);
    let cases = [
        ("key one byte short", bytes::front(key, 55), text, s),
        ("key one byte long", key, text, s),
        ("key empty", bytes::front(key, 0), text, s),
        (
            "signature one byte short",
            k,
            text,
            bytes::front(signature, 2507),
        ),
        ("signature one byte long", k, text, signature),
        ("signature empty", k, text, bytes::front(signature, 0)),
        ("text one byte short", k, bytes::from(text, 1), s),
    ];
    for (name, key, text, signature) in cases {
        report::answer(rt, name, lms::check(6, 3, key, text, signature))?;
    }
    Ok(())
}

// One field of the key after the other, by a byte of each.
fn key_fields(rt: &impl Print, key: &mut [u8], text: &[u8], signature: &[u8]) -> io::Result<()> {
    let fields = [
        ("wrong type in the key", 3),
        ("wrong one-time type in the key", 7),
        ("wrong I in the key", 8),
        ("wrong root in the key", 55),
    ];
    for (name, at) in fields {
        change(key, at);
        answered(rt, name, key, text, signature)?;
        change(key, at);
    }
    Ok(())
}

// The same of the signature.
fn signature_fields(
    rt: &impl Print,
    key: &[u8],
    text: &[u8],
    signature: &mut [u8],
) -> io::Result<()> {
    let fields = [
        ("wrong number", 3),
        ("number past the tree", 2),
        ("wrong one-time type in the signature", 7),
        ("wrong randomizer", 8),
        ("wrong string y0", 40),
        ("wrong checksum string y66", 2183),
        ("wrong type in the signature", 2187),
        ("wrong path0", 2188),
        ("wrong path9", 2507),
    ];
    for (name, at) in fields {
        change(signature, at);
        answered(rt, name, key, text, signature)?;
        change(signature, at);
    }
    Ok(())
}

// What the check of a record answers.
fn answered(
    rt: &impl Print,
    name: &str,
    key: &[u8],
    text: &[u8],
    signature: &[u8],
) -> io::Result<()> {
    let k = bytes::front(key, 56);
    let s = bytes::front(signature, 2508);
    report::answer(rt, name, lms::check(6, 3, k, text, s))
}

// Changes a byte, or changes it back.
fn change(s: &mut [u8], at: usize) {
    if let Some(byte) = s.get_mut(at) {
        *byte ^= 4;
    }
}
