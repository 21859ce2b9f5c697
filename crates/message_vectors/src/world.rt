// All in one slice (`exchange::run`): the places of users 1 and 2, then those of servers 1 to 4, then the users' keys.
ghost use Rattle.std.specs.Prelude.{◌≡◌, length};

use crate::hex;
use exchange::run::Run;
use exchange::{run, server_place};
use programs::{key, print};
use sha256::bytes;
use std::io;

pub const SERVERS: u8 = 4;

// How many bytes a server's place has; its store takes all behind the first 88.
pub const PLACE: usize = 8192;

const FIRST: u32 = 32768;

const KEYS: u32 = 65536;

// The memory of all places and keys, zero. The `ensures` gives only the length, so that no proof computes with the list.
pub fn memory() -> [u8; 265688]
    ensures { 265688 ≡ length result }
{
    [0; 265688]
}

// Lays the keys of users 1 and 2.
pub fn lay_keys(world: &mut [u8]) {
    bytes::put(world, KEYS as usize, &key::of_two());
}

// The users' keys: the user list, and behind it what signs.
pub fn keys(world: &[u8]) -> &[u8] {
    bytes::from(world, KEYS as usize)
}

// The run, with servers on the first `room` bytes of their places.
pub fn run_on(room: u32) -> Run {
    Run {
        servers: SERVERS,
        users: 2,
        first: FIRST,
        apart: PLACE as u32,
        size: room,
        keys: KEYS,
        second: 0,
        honest: 0,
    }
}

// The run.
pub fn run() -> Run {
    run_on(PLACE as u32)
}

// The place of a server, with what follows it.
pub fn server(own: u8, world: &[u8]) -> &[u8] {
    bytes::from(world, run::server_at(run(), 1, own))
}

// How many bytes of a server's store are used.
pub fn used(own: u8, world: &[u8]) -> usize {
    bytes::u32_at(server(own, world), server_place::USED) as usize
}

// The used part of a server's store from a place on.
pub fn stored_from(own: u8, from: usize, world: &[u8]) -> &[u8] {
    let store = bytes::from(server(own, world), server_place::STORE);
    bytes::from(bytes::front(store, used(own, world)), from)
}

// A server's head, as position, level, author and digest, its earlier head after a mark, and how many bytes of its store are used.
pub fn print_server(rt: &impl Print, own: u8, world: &[u8]) -> io::Result<()> {
    hex::line(
        rt,
        b"head ",
        bytes::front(server(own, world), server_place::HEAD),
    )?;
    print::number(rt, b"used ", used(own, world))?;
    print::text(rt, b"\n")
}

// All servers at the end, with the SHA-256 of the used part of each store.
pub fn print_servers(rt: &impl Print, world: &[u8]) -> io::Result<()> {
    print_end(rt, 1, world)?;
    print_end(rt, 2, world)?;
    print_end(rt, 3, world)?;
    print_end(rt, 4, world)
}

fn print_end(rt: &impl Print, own: u8, world: &[u8]) -> io::Result<()> {
    print::filled(rt, b"\nserver #\n", &[own as u32])?;
    print_server(rt, own, world)?;
    hex::line(rt, b"hash ", &sha256::hash(stored_from(own, 0, world)))
}
