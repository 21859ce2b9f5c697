// Document 01's user cases: an honest run of two users on four servers, each code of the user's table and the ends of its ranges, calls
// that go on after a refusal, a Write that is cut after each of its answers and resumed; and writes that are given up (document 02, e).
// Each line of data/cases.txt is one step or a run of answers. data/README.md says what its numbers mean, and what is printed.
#![tactic(auto)]

mod answer;
mod case;
mod report;
mod row;
mod step;
mod work;

use programs::file;
use sha256::bytes;
use std::io;

fn main(rt: HostRuntime) -> io::Result<()> {
    let mut text = [0u8; 65536];
    let n = file::read(&rt, &mut text)?;
    rows(&rt, bytes::front(&text, n))
}

// All lines, one after the other.
fn rows(rt: &impl Print, text: &[u8]) -> io::Result<()> {
    let mut memory = work::memory();
    let world: &mut [u8] = &mut memory;
    work::lay_keys(world);
    let mut at: usize = 0;
    while at < text.len() {
        let rest = bytes::from(text, at);
        let n = lines::find(rest, b'\n');
        row::run(rt, bytes::front(rest, n), world)?;
        at += n + 1;
    }
    Ok(())
}
