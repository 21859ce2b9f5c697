// What is printed.
use crate::numbers;
use sha256::bytes;
use std::io;
use std::io::Write;

pub fn text(rt: &impl Print, s: &[u8]) -> io::Result<()> {
    io::writer(rt).write_all(s)
}

// A number, after what it is.
pub fn number(rt: &impl Print, what: &[u8], n: usize) -> io::Result<()> {
    text(rt, what)?;
    rt.print(n)
}

// A text with a number in place of each '#', in decimal. Where there are fewer numbers, nothing stands in place of the others.
pub fn filled(rt: &impl Print, what: &[u8], numbers: &[u32]) -> io::Result<()> {
    let mut k: usize = 0;
    let mut at: usize = 0;
    while at < what.len() {
        let rest = bytes::from(what, at);
        let n = lines::find(rest, b'#');
        text(rt, bytes::front(rest, n))?;
        number_at(rt, numbers, k)?;
        at += n + 1;
        k += 1;
    }
    Ok(())
}

// The number at a place of a list, nothing past its end.
fn number_at(rt: &impl Print, numbers: &[u32], k: usize) -> io::Result<()> {
    if k < numbers.len() {
        return decimal(rt, numbers[k]);
    }
    Ok(())
}

fn decimal(rt: &impl Print, n: u32) -> io::Result<()> {
    rt.print(n)
}

// What a table says of a number. It has a line for each: the number, a space and what is said. A line without a number stands for every
// one that no line above it has.
pub fn said_of(rt: &impl Print, n: u32, table: &[u8]) -> io::Result<()> {
    let mut at: usize = 0;
    while at < table.len() {
        let rest = bytes::from(table, at);
        let length = lines::find(rest, b'\n');
        let line = bytes::front(rest, length);
        if is_of(n, line) {
            return text(rt, numbers::after(line));
        }
        at += length + 1;
    }
    Ok(())
}

// Whether a line of a table is of a number.
fn is_of(n: u32, line: &[u8]) -> bool {
    let d = lines::read_digits(line, 0);
    if d.found {
        return d.value == n;
    }
    true
}

// The first 8 bytes of a digest, in hexadecimal, after what it is.
pub fn digest_start(rt: &impl Print, what: &[u8], d: [u8; 32]) -> io::Result<()> {
    text(rt, what)?;
    let first = bytes::u32_at(&d, 0);
    let second = bytes::u32_at(&d, 4);
    print!(rt; "{first:08x}{second:08x}")
}
