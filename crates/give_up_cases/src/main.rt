// What the premises of document 02, e, are for: views that part for longer than Q where one of them does not hold. N is 5, and server 5
// alone follows the rules; the others show users 1 and 2 two copies of the log from position 2 on. At last a log that ends, since a Reserve
// arrives after its give-up. Each line of data/cases.txt is one step, and data/README.md says what its numbers mean and what is printed.
#![tactic(auto)]

mod held;
mod report;
mod row;
mod view;
mod world;

use programs::file;
use sha256::bytes;
use std::io;

fn main(rt: HostRuntime) -> io::Result<()> {
    let mut text = [0u8; 65536];
    let n = file::read(&rt, &mut text)?;
    rows(&rt, bytes::front(&text, n))
}

// All lines, one after the other.
fn rows(rt: &impl Print, text: &[u8]) -> io::Result<()> {
    let mut memory = world::memory();
    let world: &mut [u8] = &mut memory;
    world::lay_keys(world);
    let mut at: usize = 0;
    while at < text.len() {
        let rest = bytes::from(text, at);
        let n = lines::find(rest, b'\n');
        row::run(rt, bytes::front(rest, n), world)?;
        at += n + 1;
    }
    Ok(())
}
