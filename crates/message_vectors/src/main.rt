// Messages of one log, byte for byte, for other implementers: two users write five entries on four servers, one of them strikes and one
// holds a firing schedule; then an Update, two Reads, and requests that a server refuses. docs/VECTORS.md describes the lines.
#![tactic(auto)]

mod call;
mod hex;
mod refused;
mod world;

use exchange::server_place;
use programs::{key, print};
use sha256::bytes;
use std::io;

fn main(rt: HostRuntime) -> io::Result<()> {
    let mut memory = world::memory();
    let world: &mut [u8] = &mut memory;
    world::lay_keys(world);
    setup(&rt, world::keys(world))?;
    honest_run(&rt, world)?;
    refused::requests(&rt, world)?;
    world::print_servers(&rt, world)
}

// What all share: N, the length of a store, the log's name, and the users' keys.
fn setup(rt: &impl Print, keys: &[u8]) -> io::Result<()> {
    print::number(rt, b"servers ", world::SERVERS as usize)?;
    print::number(rt, b"\nstore ", world::PLACE - server_place::STORE)?;
    print::text(rt, b"\n")?;
    hex::line(rt, b"log ", &key::LOG)?;
    user(rt, 1, keys)?;
    user(rt, 2, keys)
}

// A user's key: seed, identifier and public key.
fn user(rt: &impl Print, own: u8, keys: &[u8]) -> io::Result<()> {
    print::filled(rt, b"\nuser #\n", &[own as u32])?;
    hex::line(rt, b"seed ", &[own; 32])?;
    hex::line(rt, b"identifier ", &[own; 16])?;
    hex::line(
        rt,
        b"key ",
        bytes::front(
            bytes::from(keys, key::PUBLIC * key::before(own)),
            key::PUBLIC,
        ),
    )
}

// Five entries, and what the users then ask for.
fn honest_run(rt: &impl Print, world: &mut [u8]) -> io::Result<()> {
    first_entries(rt, world)?;
    later_entries(rt, world)?;
    call::update(rt, 2, world)?;
    call::read(rt, 2, 2, world)?;
    call::read(rt, 2, 5, world)
}

// An Update of an empty log, and two insertions.
fn first_entries(rt: &impl Print, world: &mut [u8]) -> io::Result<()> {
    call::update(rt, 1, world)?;
    call::write(rt, 1, b"\x01bisque", world)?;
    call::write(rt, 2, b"\x01raku", world)
}

// A strike of position 2, a firing, and an insertion.
fn later_entries(rt: &impl Print, world: &mut [u8]) -> io::Result<()> {
    call::write(rt, 1, b"\x02\x00\x00\x00\x02", world)?;
    call::write(rt, 2, &schedule(), world)?;
    call::write(rt, 1, b"\x01salt", world)
}

// A firing of two segments: 100 degrees an hour to 600, held for 15 minutes; then 150 an hour down to 50.
fn schedule() -> [u8; 14] {
    [3, 2, 0, 100, 2, 88, 0, 15, 255, 106, 0, 50, 0, 0]
}
