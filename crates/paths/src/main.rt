// Reads N and a last position from standard input and prints the table of paths, or `22`. The buffer has one byte more than an input may
// have, so that a longer one is seen to be longer, and refused.
#![tactic(auto)]

use lines::input;
use std::io;

fn main(rt: HostRuntime) -> io::Result<()> {
    let mut text = [0u8; 4097];
    let n = input::read_full(&mut rt.reader(), &mut text)?;
    owner_map::send_answer(&rt, &text[..n], true)?;
    Ok(())
}
