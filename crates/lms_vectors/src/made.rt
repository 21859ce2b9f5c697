// Keys and signatures made from a seed, I and a randomizer.
use crate::{record, report};
use sha256::bytes;
use std::io;
use std::rt::Files;

// What a key and its signatures are made from.
#[derive(Clone, Copy)]
struct Secrets {
    seed: [u8; 32],
    id: [u8; 16],
    randomizer: [u8; 32],
}

// Generates a key from its file, prints its public key and the signature of a record's text with that number, checks it, and runs what is
// refused.
pub fn run(rt: &(impl Files + Print + Eprint), name: &str, number: u32) -> io::Result<()> {
    let k = read_secrets(rt, name)?;
    let mut message = [0u8; 256];
    let m = message_of(rt, name, &mut message)?;
    let text = bytes::front(&message, m);
    let mut nodes = [0u8; 65536];
    let code = lms::generate(6, 3, k.seed, k.id, &mut nodes);
    println!(rt; "{name} generate: {code}")?;
    sign_and_check(rt, name, k, number, text, &nodes)?;
    refusals(rt, name, k, number, text, &nodes)
}

// Reads a key's seed, I and randomizer.
fn read_secrets(rt: &(impl Files + Eprint), name: &str) -> io::Result<Secrets> {
    let mut seed = [0u8; 32];
    let mut id = [0u8; 16];
    let mut randomizer = [0u8; 32];
    record::fields(rt, name, "_key.txt", &mut seed, &mut id, &mut randomizer)?;
    Ok(Secrets {
        seed,
        id,
        randomizer,
    })
}

// The text of a record, and its length.
fn message_of(rt: &(impl Files + Eprint), name: &str, message: &mut [u8]) -> io::Result<usize> {
    let mut key = [0u8; 56];
    let mut signature = [0u8; 2508];
    let n = record::fields(rt, name, ".txt", &mut key, &mut signature, message)?;
    Ok(n.third)
}

// Prints the public key and the signature, and checks it.
fn sign_and_check(
    rt: &impl Print,
    name: &str,
    k: Secrets,
    number: u32,
    text: &[u8],
    nodes: &[u8],
) -> io::Result<()> {
    let mut key = [0u8; 56];
    let code = lms::public_key(6, 3, k.id, nodes, &mut key);
    println!(rt; "{name} public key: {code}")?;
    report::in_hexadecimal(rt, name, "public key", &key)?;
    let mut signature = [0u8; 2508];
    sign(rt, name, "sign", k, number, text, nodes, &mut signature)?;
    report::in_hexadecimal(rt, name, "signature", &signature)?;
    report::answer(rt, name, lms::check(6, 3, &key, text, &signature))
}

// Signs, and prints the code.
fn sign(
    rt: &impl Print,
    name: &str,
    what: &str,
    k: Secrets,
    number: u32,
    text: &[u8],
    nodes: &[u8],
    out: &mut [u8],
) -> io::Result<()> {
    let code = lms::sign(6, 3, k.seed, k.id, number, k.randomizer, text, nodes, out);
    println!(rt; "{name} {what}: {code}")
}

// What is refused: a number past the last, and buffers one byte short.
fn refusals(
    rt: &impl Print,
    name: &str,
    k: Secrets,
    number: u32,
    text: &[u8],
    nodes: &[u8],
) -> io::Result<()> {
    let mut place = [0u8; 2508];
    let past = "sign with number 1024";
    sign(rt, name, past, k, 1024, text, nodes, &mut place)?;
    let cut = bytes::front(nodes, 65503);
    let what = "sign with a tree of 65503 bytes";
    sign(rt, name, what, k, number, text, cut, &mut place)?;
    let mut short = [0u8; 2507];
    let into = "sign into 2507 bytes";
    sign(rt, name, into, k, number, text, nodes, &mut short)?;
    short_key(rt, name, k, nodes)
}

// The same for the buffers of a key.
fn short_key(rt: &impl Print, name: &str, k: Secrets, nodes: &[u8]) -> io::Result<()> {
    let mut key = [0u8; 55];
    let code = lms::public_key(6, 3, k.id, nodes, &mut key);
    println!(rt; "{name} public key into 55 bytes: {code}")?;
    let mut tree = [0u8; 65503];
    let other = lms::generate(6, 3, k.seed, k.id, &mut tree);
    println!(rt; "{name} generate into 65503 bytes: {other}")
}
