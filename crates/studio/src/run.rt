// What the lines of a script do.
use crate::{board, fork, report, world};
use exchange::run;
use exchange::run::Call;
use firing_text::kiln;
use programs::{place, print};
use script::{Command, Word};
use sha256::bytes;
use std::io;

// Runs a line. A line with a fault changes nothing.
pub fn line(rt: &impl Print, line: &[u8], number: usize, world: &mut [u8]) -> io::Result<()> {
    if script::is_idle(line) {
        return Ok(());
    }
    report::echo(rt, line)?;
    let text = bytes::from(line, lines::skip_blanks(line, 0));
    let c = script::parse(text, world::servers(world));
    if report::fault(rt, number, c)? {
        return Ok(());
    }
    let word = c.word;
    match word {
        Word::Servers => begin(rt, c.first, world),
        Word::Fork => fork::begin(rt, c.first, world),
        _ => act(rt, c, text, world),
    }
}

// A new log of n servers.
fn begin(rt: &impl Print, n: u32, world: &mut [u8]) -> io::Result<()> {
    world::begin(world);
    world::set_servers((n % 256) as u8, world);
    report::begun(rt, n)
}

// A user's call.
fn act(rt: &impl Print, c: Command, line: &[u8], world: &mut [u8]) -> io::Result<()> {
    let own = (c.first % 256) as u8;
    let rest = bytes::from(line, c.text);
    let word = c.word;
    match word {
        Word::Update => update(rt, own, world),
        Word::Read | Word::Report | Word::Warm | Word::Begin => read(rt, c, rest, world),
        Word::Board => board::show(rt, own, world),
        Word::Settled => settled(rt, own, c.second, world),
        Word::Strike => strike(rt, own, c.second, world),
        Word::Fire => fire(rt, own, rest, world),
        Word::GiveUp => give_up(rt, own, run::ALL, world),
        Word::CutGiveUp => give_up(rt, own, c.second, world),
        _ => write(rt, c, rest, world),
    }
}

fn update(rt: &impl Print, own: u8, world: &mut [u8]) -> io::Result<()> {
    let open_before = world::some_open(world);
    let c = Call {
        own,
        kind: 1,
        number: 0,
        most: run::ALL,
    };
    let answers = world::call(c, b"", world);
    report::call(rt, place::of(own, world), answers)?;
    fork::after(rt, own, open_before, world)
}

// A give-up of the open write. No server that follows the rules refuses one but with 27, which ends it like 0.
fn give_up(rt: &impl Print, own: u8, most: u32, world: &mut [u8]) -> io::Result<()> {
    let c = Call {
        own,
        kind: 4,
        number: 0,
        most,
    };
    let answers = world::call(c, b"", world);
    let place = place::of(own, world);
    report::call(rt, place, answers)?;
    report::given_up(rt, place)?;
    let operation = report::next(run::version(own, world));
    fork::notice(rt, own, operation, false, world)
}

// Reads a position, and prints the entry there or what is reported of its firing, with the windows that a text lists.
fn read(rt: &impl Print, c: Command, text: &[u8], world: &mut [u8]) -> io::Result<()> {
    let own = (c.first % 256) as u8;
    let word = c.word;
    let answers = world::read(own, c.second, world);
    let place = place::of(own, world);
    report::call(rt, place, answers)?;
    match word {
        Word::Read => report::entry(rt, c.second, place)?,
        _ => report::firing(rt, c, text, place)?,
    }
    fork::notice(rt, own, c.second, world::some_open(world), world)
}

fn settled(rt: &impl Print, own: u8, position: u32, world: &mut [u8]) -> io::Result<()> {
    let s = world::settled(own, position, world);
    world::read(own, position, world);
    report::settled(
        rt,
        world::servers(world),
        own,
        position,
        s,
        place::of(own, world),
    )
}

// An entry that inserts a text.
fn write(rt: &impl Print, c: Command, text: &[u8], world: &mut [u8]) -> io::Result<()> {
    let own = (c.first % 256) as u8;
    let word = c.word;
    match word {
        Word::Cut => insert(rt, own, text, c.second, world),
        Word::Resume => resume(rt, own, text, world),
        _ => insert(rt, own, text, run::ALL, world),
    }
}

fn resume(rt: &impl Print, own: u8, text: &[u8], world: &mut [u8]) -> io::Result<()> {
    if world::is_open(own, world) {
        insert(rt, own, text, run::ALL, world)
    } else {
        print::text(rt, b"  this user has no open write\n")
    }
}

// An entry that inserts a text: the byte 1 before it.
fn insert(rt: &impl Print, own: u8, text: &[u8], most: u32, world: &mut [u8]) -> io::Result<()> {
    let mut entry = [0u8; 1024];
    bytes::put2(&mut entry, 0, &[1], text);
    let whole = bytes::front(&entry, 1 + text.len());
    write_entry(rt, own, whole, most, world)
}

// An entry that strikes a position: the byte 2 before its four bytes.
fn strike(rt: &impl Print, own: u8, position: u32, world: &mut [u8]) -> io::Result<()> {
    let p = bytes::be4(position);
    let entry = [2, p[0], p[1], p[2], p[3]];
    write_entry(rt, own, &entry, run::ALL, world)
}

// An entry that holds a firing, with the segments that a text lists.
fn fire(rt: &impl Print, own: u8, text: &[u8], world: &mut [u8]) -> io::Result<()> {
    let mut entry = [0u8; 98];
    let length = kiln::lay(text, &mut entry);
    write_entry(rt, own, bytes::front(&entry, length), run::ALL, world)
}

// A Write of an entry, or of the open one that it resumes. Its randomizer is the own number 32 times.
fn write_entry(
    rt: &impl Print,
    own: u8,
    entry: &[u8],
    most: u32,
    world: &mut [u8],
) -> io::Result<()> {
    let open_before = world::some_open(world);
    let c = Call {
        own,
        kind: 2,
        number: own as u32,
        most,
    };
    let answers = world::call(c, entry, world);
    let place = place::of(own, world);
    report::call(rt, place, answers)?;
    report::cut(rt, place)?;
    fork::after(rt, own, open_before, world)
}
