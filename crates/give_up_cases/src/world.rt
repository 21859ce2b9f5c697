// All in one slice (`exchange::run`): the places of users 1 and 2; those of servers 1 to 5; second copies of them; how far behind a
// server's place its second copy begins, 0 as long as none is shown to user 2; a message that is held back; and the keys.
ghost use Rattle.std.specs.Prelude.{◌≡◌, length};

use exchange::run::Run;
use exchange::user_step;
use programs::{key, print};
use sha256::bytes;
use std::io;

// The server that follows the rules.
pub const HONEST: u8 = 5;

// Where the servers begin, how many bytes each has, and how far behind them their second copies begin.
const FIRST: u32 = 32768;

const PLACE: u32 = 8192;

const SECOND: u32 = 40960;

const FORKED: usize = 114688;

// Where the message that is held back has its length, and where it stands.
pub const LENGTH: usize = 114692;

pub const MESSAGE: usize = 114694;

const KEYS: u32 = 117260;

// The memory, zero: nothing is kept, nothing reserved and nothing stored, and there are no keys. The `ensures` gives only the length, so
// that no proof computes with the list.
pub fn memory() -> [u8; 317412]
    ensures { 317412 ≡ length result }
{
    [0; 317412]
}

// Lays the keys of both users.
pub fn lay_keys(world: &mut [u8]) {
    bytes::put(world, KEYS as usize, &key::of_two());
}

// The run as it goes on.
pub fn run(world: &[u8]) -> Run {
    Run {
        servers: 5,
        users: 2,
        first: FIRST,
        apart: PLACE,
        size: PLACE,
        keys: KEYS,
        second: bytes::u32_at(world, FORKED),
        honest: HONEST,
    }
}

// A new log.
pub fn begin(rt: &impl Print, world: &mut [u8]) -> io::Result<()> {
    bytes::put(world, 0, &[0u8; 117260]);
    print::text(rt, b": users 1 and 2 have version 0")
}

// From now on servers 1 to 4 show user 2 second copies, which begin as the servers are.
pub fn fork(rt: &impl Print, world: &mut [u8]) -> io::Result<()> {
    let mut copies = [0u8; 40960];
    user_step::load(world, FIRST as usize, &mut copies);
    bytes::put2(
        world,
        (FIRST + SECOND) as usize,
        &copies,
        &bytes::be4(SECOND),
    );
    print::text(rt, b": done")
}
