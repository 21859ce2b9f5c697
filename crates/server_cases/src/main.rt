// Document 01's server cases: an honest run on four servers, each refusal of the table, and the ends of its ranges; and document 02's, e.
// Each line of data/cases.txt is one call, and data/README.md says what its numbers mean. A line is printed for each: the code,
// the head (position, level, author, digest) and its earlier one, the store's used length and the answer's length after the call, and the
// SHA-256 of the lent store and of the lent answer buffer. Of each digest the first 8 bytes are printed.
#![tactic(auto)]

mod call;
mod row;
mod sent;

ghost use Rattle.std.specs.Prelude.{◌≡◌, length};

use programs::{file, key};
use sha256::bytes;
use std::io;

fn main(rt: HostRuntime) -> io::Result<()> {
    let keys = key::of_two();
    let mut text = [0u8; 65536];
    let n = file::read(&rt, &mut text)?;
    rows(&rt, bytes::front(&text, n), &keys)
}

// The memory of the eight servers' places, zero. The `ensures` gives only the length, so that no proof computes with the list.
fn memory() -> [u8; 65856]
    ensures { 65856 ≡ length result }
{
    [0; 65856]
}

// The calls of all lines, one after the other, on eight servers that begin with nothing reserved and nothing stored.
fn rows(rt: &impl Print, text: &[u8], keys: &[u8]) -> io::Result<()> {
    let mut world = memory();
    let servers: &mut [u8] = &mut world;
    let mut at: usize = 0;
    while at < text.len() {
        let rest = bytes::from(text, at);
        let n = lines::find(rest, b'\n');
        row::run(rt, bytes::front(rest, n), servers, keys)?;
        at += n + 1;
    }
    Ok(())
}
