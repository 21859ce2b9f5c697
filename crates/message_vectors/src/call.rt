// A user's calls, each driven by the servers' answers, with every message printed.
use crate::{hex, world};
use exchange::{run, user_place};
use programs::{place, print};
use sha256::bytes;
use std::io;

// An Update, to its end.
pub fn update(rt: &impl Print, own: u8, world: &mut [u8]) -> io::Result<()> {
    print::filled(rt, b"\nUpdate by user #\n", &[own as u32])?;
    run::step(world::run(), own, 1, 0, b"", world);
    answers(rt, own, world)?;
    end(rt, own, world)
}

// A Write of an entry, to its end. Its randomizer repeats one byte, 16 plus the number of its signature.
pub fn write(rt: &impl Print, own: u8, entry: &[u8], world: &mut [u8]) -> io::Result<()> {
    let number = bytes::u32_at(place::of(own, world), user_place::NUMBER) % 200 + 16;
    print::filled(rt, b"\nWrite by user #\n", &[own as u32])?;
    hex::line(rt, b"entry ", entry)?;
    hex::line(rt, b"randomizer ", &[(number % 256) as u8; 32])?;
    run::step(world::run(), own, 2, number, entry, world);
    answers(rt, own, world)?;
    end(rt, own, world)
}

// A Read of a position, to its end, and what it found.
pub fn read(rt: &impl Print, own: u8, position: u32, world: &mut [u8]) -> io::Result<()> {
    print::filled(
        rt,
        b"\nRead by user #\nposition #\n",
        &[own as u32, position],
    )?;
    run::step(world::run(), own, 3, position, b"", world);
    answers(rt, own, world)?;
    end(rt, own, world)?;
    print_found(rt, place::of(own, world))
}

// What a Read found.
fn print_found(rt: &impl Print, place: &[u8]) -> io::Result<()> {
    let author = bytes::u16_at(place, user_place::AUTHOR);
    print::filled(rt, b"author #\n", &[author as u32])?;
    hex::line(rt, b"entry ", user_place::entry_of(place))
}

// What a call left: its code, and what the user keeps.
fn end(rt: &impl Print, own: u8, world: &[u8]) -> io::Result<()> {
    let place = place::of(own, world);
    let code = bytes::byte_at(place, user_place::CODE);
    print::filled(rt, b"code #\n", &[code as u32])?;
    hex::line(rt, b"kept ", bytes::front(place, user_place::CALL))
}

// Takes in answers until the call ends.
fn answers(rt: &impl Print, own: u8, world: &mut [u8]) -> io::Result<()> {
    let mut taken: u32 = 0;
    while taken < run::ALL {
        if user_place::ended(place::of(own, world)) {
            return Ok(());
        }
        turn(rt, own, world)?;
        taken += 1;
    }
    Ok(())
}

// One answer of the server that a user asks, taken in.
fn turn(rt: &impl Print, own: u8, world: &mut [u8]) -> io::Result<()> {
    let mut request = [0u8; 2566];
    let mut answer = [0u8; 2552];
    let n = run::request_out(own, world, &mut request);
    let server = run::server_asked(own, world);
    let sent = bytes::front(&request, n);
    let size = ask(rt, server, world::PLACE as u32, sent, world, &mut answer)?;
    run::step(world::run(), own, 0, 0, bytes::front(&answer, size), world);
    Ok(())
}

// A request to a server on the first `room` bytes of its place, and what came of it, printed: the answer, the head and the used length
// after it, and the record that was stored, where one was. Hands back the answer's length.
pub fn ask(
    rt: &impl Print,
    server: u8,
    room: u32,
    request: &[u8],
    world: &mut [u8],
    answer: &mut [u8],
) -> io::Result<usize> {
    let before = world::used(server, world);
    print::filled(rt, b"server #\n", &[server as u32])?;
    hex::line(rt, b"request ", request)?;
    let n = run::served(world::run_on(room), 1, server, request, world, answer);
    hex::line(rt, b"answer ", bytes::front(answer, n))?;
    world::print_server(rt, server, world)?;
    print_record(rt, world::stored_from(server, before, world))?;
    Ok(n)
}

// The record that was stored, where one was.
fn print_record(rt: &impl Print, record: &[u8]) -> io::Result<()> {
    if 0 < record.len() {
        hex::line(rt, b"record ", record)?;
    }
    Ok(())
}
