// A line of the file: a user, what is done, a number, and two changes. data/README.md counts the numbers from 1, the code from 0.
use crate::{held, report, view, world};
use exchange::run;
use programs::{line, print};
use sha256::bytes;
use std::io;

// Does what a line says, and prints the line's name and what came of it. A line without a colon is a heading.
pub fn run(rt: &impl Print, text: &[u8], world: &mut [u8]) -> io::Result<()> {
    let n = lines::find(text, b':');
    print::text(rt, bytes::front(text, n))?;
    if text.len() <= n {
        return print::text(rt, b"\n");
    }
    let f = line::numbers(bytes::from(bytes::from(text, n), 2));
    done(rt, f, world)?;
    print::text(rt, b"\n")
}

// What a line does.
fn done(rt: &impl Print, f: [u32; 16], world: &mut [u8]) -> io::Result<()> {
    let own = (f[0] % 256) as u8;
    match f[1] {
        0 => world::begin(rt, world),
        5 => answers(rt, own, f[2], world),
        6 => held::hold_request(rt, own, world),
        7 => held::hold_answer(rt, own, world),
        8 => held::take(rt, own, world),
        9 => held::send(rt, f, world),
        10 => world::fork(rt, world),
        11 => view::compare(rt, world),
        _ => start(rt, f, own, world),
    }
}

// The start of a call: an Update, a Write of a letter, or a give-up. The randomizer repeats the letter.
fn start(rt: &impl Print, f: [u32; 16], own: u8, world: &mut [u8]) -> io::Result<()> {
    let entry = [1, (f[2] % 256) as u8];
    let r = world::run(world);
    run::step(r, own, (f[1] % 256) as u8, f[2], &entry, world);
    report::step(rt, own, world)
}

// Some of the servers' answers, taken in.
fn answers(rt: &impl Print, own: u8, most: u32, world: &mut [u8]) -> io::Result<()> {
    let n = run::answers(world::run(world), own, most, world);
    print::number(rt, b": answers ", n as usize)?;
    report::step(rt, own, world)
}
