// Bytes in hexadecimal.
use programs::print;
use std::io;

// All bytes of s as two hexadecimal digits each, after what they are, to the line's end.
pub fn line(rt: &impl Print, what: &[u8], s: &[u8]) -> io::Result<()> {
    print::text(rt, what)?;
    let mut at: usize = 0;
    while at < s.len() {
        byte(rt, s[at])?;
        at += 1;
    }
    print::text(rt, b"\n")
}

// A byte as two hexadecimal digits.
fn byte(rt: &impl Print, b: u8) -> io::Result<()> {
    print!(rt; "{b:02x}")
}
