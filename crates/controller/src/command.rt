// The commands, but for `key`.
use crate::links::Links;
use crate::step::Action;
use crate::{board, call, show, step};
use c_layout::user_start::Asked;
use programs::print;
use sha256::bytes;
use state_files::{arguments, user_file};
use std::env::Env;
use std::fs::{File, Files};
use std::io;

// A user's Write of an entry, or a call of another kind that takes none: an Update, or a give-up, which the state says before it is sent.
fn call_and_show<R>(
    rt: &R,
    links: &mut Links,
    kind: u8,
    e: &[u8],
    memory: &mut [u8],
) -> io::Result<()>
where
    R: Env + Files<File = File> + Print,
{
    let start = Action { kind, position: 0 };
    let asked = call::run(rt, links, start, e, memory);
    show::outcome(rt, asked, memory)?;
    show::open_write(rt, memory)
}

// Notes the entry of a write in the state, unless a write is open.
fn note_entry(e: &[u8], memory: &mut [u8]) {
    if bytes::byte_at(memory, user_file::KEPT + 40) == 0 && e.len() <= 1024 {
        let length = bytes::be2((e.len() % 65536) as u16);
        bytes::put2(memory, user_file::LENGTH, &length, e);
    }
}

// A user's Write of an entry. A write of the same entry that is open is resumed.
fn write<R>(rt: &R, links: &mut Links, e: &[u8], memory: &mut [u8]) -> io::Result<()>
where
    R: Env + Files<File = File> + Print,
{
    note_entry(e, memory);
    call_and_show(rt, links, 2, e, memory)
}

// Writes the text of argument 8.
fn write_text<R>(rt: &R, links: &mut Links, memory: &mut [u8]) -> io::Result<()>
where
    R: Env + Files<File = File> + Print,
{
    let mut text = [0u8; 2048];
    let Ok(n) = rt.arg(8, &mut text) else {
        return print::text(rt, b"code 19, the text is too long\n");
    };
    let mut e = [0u8; 2049];
    bytes::put2(&mut e, 0, &[1], bytes::front(&text, n));
    write(rt, links, bytes::front(&e, n % 4096 + 1), memory)
}

// Strikes the position of argument 8.
fn strike<R>(rt: &R, links: &mut Links, memory: &mut [u8]) -> io::Result<()>
where
    R: Env + Files<File = File> + Print,
{
    let p = bytes::be4(arguments::number(rt, 8));
    let e = [2, p[0], p[1], p[2], p[3]];
    write(rt, links, &e, memory)
}

// A user's Read.
pub fn read(
    rt: &(impl Env + Files<File = File>),
    links: &mut Links,
    position: u32,
    memory: &mut [u8],
) -> Asked {
    let start = Action { kind: 3, position };
    call::run(rt, links, start, b"", memory)
}

// The entry that a Read found.
pub fn entry_of(asked: Asked, memory: &[u8]) -> &[u8] {
    bytes::front(bytes::from(memory, step::ENTRY), asked.entry as usize)
}

// Reads a position and prints it, or the refusal. Whether it was refused.
pub fn read_and_show<R>(
    rt: &R,
    links: &mut Links,
    position: u32,
    memory: &mut [u8],
) -> io::Result<bool>
where
    R: Env + Files<File = File> + Print,
{
    let asked = read(rt, links, position, memory);
    if asked.code == 0 {
        show::found(rt, position, asked.author, entry_of(asked, memory))?;
        return Ok(false);
    }
    show::outcome(rt, asked, memory)?;
    Ok(true)
}

// Whether the own operation of argument 8 is settled.
fn settled(rt: &(impl Env + Print), memory: &[u8]) -> io::Result<()> {
    let s = step::settled(arguments::number(rt, 8), memory);
    print::filled(rt, b"code #, settled #\n", &[s.code, s.settled])
}

// Runs the command of argument 7.
pub fn run<R>(rt: &R, links: &mut Links, memory: &mut [u8]) -> io::Result<()>
where
    R: Env + Files<File = File> + Print,
{
    if arguments::is(rt, 7, b"update") {
        return call_and_show(rt, links, 1, b"", memory);
    }
    if arguments::is(rt, 7, b"give-up") {
        return call_and_show(rt, links, 4, b"", memory);
    }
    if arguments::is(rt, 7, b"write") {
        return write_text(rt, links, memory);
    }
    run_other(rt, links, memory)
}

// Runs one of the commands that are left.
fn run_other<R>(rt: &R, links: &mut Links, memory: &mut [u8]) -> io::Result<()>
where
    R: Env + Files<File = File> + Print,
{
    if arguments::is(rt, 7, b"strike") {
        return strike(rt, links, memory);
    }
    if arguments::is(rt, 7, b"read") {
        read_and_show(rt, links, arguments::number(rt, 8), memory)?;
        return Ok(());
    }
    if arguments::is(rt, 7, b"board") {
        return board::draw(rt, links, memory);
    }
    settled(rt, memory)
}
