// A file of messages: a line for each, with its name, a space and the message in hexadecimal digits.
ghost use Rattle.std.specs.Prelude.{◌≤◌, length, IfOk};

use crate::{parts, report};
use sha256::bytes;
use std::io::{Read, Seek, SeekFrom};
use std::rt::Files;
use std::{fs, io};

// Hashes the message of every line of a file, or says why it cannot be opened.
// The lines have at most 65,536 bytes, and the file at most 1,000,000,000.
pub fn run(rt: &(impl Files + Print + Eprint), path: &str) -> io::Result<()> {
    let mut file = match fs::open(rt, path) {
        Ok(file) => file,
        Err(e) => return eprintln!(rt; "{path}: {e}"),
    };
    let mut at = 0;
    while at <= 1000000000 {
        let n = some_lines(rt, &mut file, at)?;
        if n == 0 {
            break;
        }
        at += n;
    }
    Ok(())
}

// Reads from the place `at` of the file on, hashes the lines read whole, and answers how many bytes they take.
fn some_lines<F: Read + Seek>(rt: &impl Print, file: &mut F, at: usize) -> io::Result<usize>
    requires { at ≤ 1000000000 }
    ensures { IfOk result (λ n. n ≤ 65536) }
{
    let mut text = [0u8; 65536];
    file.seek(SeekFrom::Start(at as u64))?;
    let n = file.read(&mut text)?;
    lines(rt, &text[..n])
}

// Hashes the lines that end in the text, and answers how many bytes they take.
fn lines(rt: &impl Print, text: &[u8]) -> io::Result<usize>
    ensures { IfOk result (λ n. n ≤ length text.now) }
{
    let mut at = 0;
    while at < text.len() {
        let end = find(text, at, b'\n');
        if end == text.len() {
            return Ok(at);
        }
        line(rt, &text[at..end])?;
        at = end + 1;
    }
    Ok(at)
}

// Hashes the message of one line at once and, where it has 56 to 300 bytes, also in parts.
fn line(rt: &impl Print, text: &[u8]) -> io::Result<()> {
    let n = find(text, 0, b' ');
    let name = bytes::front(text, n);
    let digits = bytes::from(bytes::from(text, n), 1);
    let mut space = [0u8; 6400];
    let length = lines::hex::decode(digits, &mut space);
    let message = bytes::front(&space, length);
    report::text(rt, name)?;
    report::digest(rt, sha256::hash(message))?;
    if 56 <= length && length <= 300 {
        parts::run(rt, name, message)?;
    }
    Ok(())
}

// The first place from i on where s has the byte b, or the length of s where there is none.
fn find(s: &[u8], i: usize, b: u8) -> usize
    requires { i ≤ length s.now }
    ensures { (i ≤ result) × (result ≤ length s.now) }
{
    let mut at = i;
    while at < s.len() {
        if s[at] == b {
            return at;
        }
        at += 1;
    }
    at
}
