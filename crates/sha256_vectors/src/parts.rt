// The hash of a message that is handed over in parts: it must be the digest of the whole.
ghost use Rattle.std.specs.Prelude.{◌<◌};

use crate::report;
use sha256::bytes;
use sha256::stream::Sha;
use std::io;

// The message cut in two, in three, and into equal parts, with cuts about the ends of a block and of its padding.
pub fn run(rt: &impl Print, name: &[u8], message: &[u8]) -> io::Result<()> {
    in_two(rt, name, message, 0)?;
    in_two(rt, name, message, 1)?;
    in_two(rt, name, message, 55)?;
    in_two(rt, name, message, 56)?;
    in_two(rt, name, message, 64)?;
    in_three(rt, name, message, 0, 56)?;
    in_three(rt, name, message, 1, 54)?;
    in_three(rt, name, message, 31, 33)?;
    by(rt, name, message, 1)?;
    by(rt, name, message, 55)?;
    by(rt, name, message, 64)?;
    by(rt, name, message, 65)
}

// The first n bytes and the rest.
fn in_two(rt: &impl Print, name: &[u8], message: &[u8], n: usize) -> io::Result<()> {
    let first = bytes::front(message, n);
    let second = bytes::from(message, n);
    report::text(rt, name)?;
    report::part(rt, b" ", first)?;
    report::part(rt, b"+", second)?;
    report::digest(rt, sha256::hash2(first, second))
}

// The first n bytes, the next k, and the rest.
fn in_three(rt: &impl Print, name: &[u8], message: &[u8], n: usize, k: usize) -> io::Result<()> {
    let first = bytes::front(message, n);
    let after = bytes::from(message, n);
    let second = bytes::front(after, k);
    let third = bytes::from(after, k);
    report::text(rt, name)?;
    report::part(rt, b" ", first)?;
    report::part(rt, b"+", second)?;
    report::part(rt, b"+", third)?;
    report::digest(rt, sha256::hash3(first, second, third))
}

// Parts of k bytes, and a last one of at most k.
pub fn by(rt: &impl Print, name: &[u8], message: &[u8], k: usize) -> io::Result<()>
    requires { 0 < k }
{
    let mut state = Sha::begin(b"");
    let mut at = 0;
    while k < message.len() - at {
        state = state.update(&message[at..at + k]);
        at += k;
    }
    state = state.update(&message[at..]);
    report::text(rt, name)?;
    report::text(rt, b" by ")?;
    report::number(rt, k)?;
    report::digest(rt, state.finish())
}
