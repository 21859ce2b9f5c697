// Messages of one byte repeated.
use crate::report;
use sha256::bytes;
use sha256::stream::Sha;
use std::io;

// n times the byte b, at most 1,005 times, hashed at once.
pub fn few(rt: &impl Print, name: &[u8], b: u8, n: usize) -> io::Result<()> {
    let filled = [b; 1005];
    report::text(rt, name)?;
    report::digest(rt, sha256::hash(bytes::front(&filled, n)))
}

// A million times the byte b, taken in by 1,000 parts of 1,000 bytes.
pub fn million(rt: &impl Print, name: &[u8], b: u8) -> io::Result<()> {
    let part = [b; 1000];
    let mut state = Sha::begin(&part);
    let mut i = 1usize;
    while i < 1000 {
        state = state.update(&part);
        i += 1;
    }
    report::text(rt, name)?;
    report::digest(rt, state.finish())
}
