// What is printed: a name, how the message was cut where it was, and the digest.
use sha256::bytes;
use std::io;

pub fn text(rt: &impl Print, s: &[u8]) -> io::Result<()> {
    rt.write_all(s)
}

pub fn number(rt: &impl Print, n: usize) -> io::Result<()> {
    print!(rt; "{n}")
}

// The length of a part, after a mark.
pub fn part(rt: &impl Print, mark: &[u8], s: &[u8]) -> io::Result<()> {
    text(rt, mark)?;
    number(rt, s.len())
}

// The digest in hexadecimal digits, and the end of the line.
pub fn digest(rt: &impl Print, d: [u8; 32]) -> io::Result<()> {
    text(rt, b" ")?;
    let mut i = 0;
    while i < 32 {
        let word = bytes::u32_at(&d, i);
        print!(rt; "{word:08x}")?;
        i += 4;
    }
    text(rt, b"\n")
}
