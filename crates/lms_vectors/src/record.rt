// A record is a file of lines of hexadecimal digits: the public key, the signature, the text. A key's file has the seed, I and the
// randomizer.
use crate::report;
use lines::input;
use sha256::bytes;
use std::rt::Files;
use std::{fs, io, str};

// Reads the file with a name and an ending, of at most 64 bytes together, to the start of text, and answers how many bytes it has. It says
// why a file cannot be opened, which then counts as empty. The path is put together here and not by `format!`: no memory is asked for
// that could be refused.
fn read(
    rt: &(impl Files + Eprint),
    name: &str,
    ending: &str,
    text: &mut [u8],
) -> io::Result<usize> {
    let mut room = [0u8; 64];
    bytes::put2(&mut room, 0, name.as_bytes(), ending.as_bytes());
    let Ok(path) = str::from_utf8(bytes::front(&room, name.len() + ending.len())) else {
        eprintln!(rt; "a file's name is no text")?;
        return Ok(0);
    };
    match fs::open(rt, path) {
        Ok(mut file) => input::read_full(&mut file, text),
        Err(e) => {
            eprintln!(rt; "{path}: {e}")?;
            Ok(0)
        }
    }
}

// The first line of a text, and what follows it.
fn first_line(text: &[u8]) -> (&[u8], &[u8]) {
    let end = lines::find(text, b'\n');
    (
        bytes::front(text, end),
        bytes::from(bytes::from(text, end), 1),
    )
}

// How many bytes the three lines of a file stand for.
#[derive(Clone, Copy)]
pub struct Lengths {
    pub first: usize,
    pub second: usize,
    pub third: usize,
}

// Reads a file, and lays what each of its three lines stands for to the front of a buffer, as far as it has room. The buffers are lent and no
// Vec, since memory could be refused, and no arrays by value, since each copy takes stack.
pub fn fields(
    rt: &(impl Files + Eprint),
    name: &str,
    ending: &str,
    first: &mut [u8],
    second: &mut [u8],
    third: &mut [u8],
) -> io::Result<Lengths> {
    let mut text = [0u8; 8192];
    let n = read(rt, name, ending, &mut text)?;
    let (one, rest) = first_line(bytes::front(&text, n));
    let (two, rest) = first_line(rest);
    let (three, _) = first_line(rest);
    Ok(Lengths {
        first: lines::hex::decode(one, first),
        second: lines::hex::decode(two, second),
        third: lines::hex::decode(three, third),
    })
}

// Checks a record's signature and prints the answer.
pub fn check(rt: &(impl Files + Print + Eprint), name: &str) -> io::Result<()> {
    let mut key = [0u8; 56];
    let mut signature = [0u8; 2508];
    let mut text = [0u8; 256];
    let n = fields(rt, name, ".txt", &mut key, &mut signature, &mut text)?;
    let (k, t) = (bytes::front(&key, n.first), bytes::front(&text, n.third));
    let s = bytes::front(&signature, n.second);
    report::answer(rt, name, lms::check(6, 3, k, t, s))
}
