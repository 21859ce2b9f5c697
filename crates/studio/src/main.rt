// A log shown to a newcomer: servers and three users in one process, driven by a script on standard input, a command to a line.
// docs/STUDIO.md lists the commands. Printed are each step's code, its answers and what the user keeps, entries and boards, a schedule's
// times, its curve and when it may begin, and, once the servers keep two copies of the log, where the users' views differ, against Q, and
// who notices it.
#![tactic(auto)]

mod board;
mod fork;
mod report;
mod run;
mod world;

use lines::input;
use sha256::bytes;
use std::io;

fn main(rt: HostRuntime) -> io::Result<()> {
    let mut space = script::memory();
    let n = input::read_full(&mut rt.reader(), &mut space)?;
    let text = bytes::front(&space, n);
    if script::is_too_long(text) {
        return report::too_long(&rt);
    }
    lines_of(&rt, text)
}

// Runs the lines one after the other, on four servers until the script says otherwise.
fn lines_of(rt: &impl Print, text: &[u8]) -> io::Result<()> {
    let mut memory = world::zeros();
    let world: &mut [u8] = &mut memory;
    world::make_keys(world);
    world::set_servers(4, world);
    let mut number: usize = 0;
    let mut at = 0;
    while at < text.len() {
        let rest = bytes::from(text, at);
        let line = bytes::front(rest, lines::line_length(rest));
        number += 1;
        run::line(rt, line, number, world)?;
        at += lines::find(rest, b'\n') + 1;
    }
    Ok(())
}
