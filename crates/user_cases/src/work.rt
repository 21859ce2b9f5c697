// The memory: 16 places of users, 10,240 bytes each, then four servers, 16,384 bytes each, then the users' keys. A line works on copies of
// one place, of the servers and the keys, as a run (`exchange::run`) in which the place is user 1's.
ghost use Rattle.std.specs.Prelude.{◌≡◌, length};

use exchange::run::Run;
use programs::key;
use sha256::bytes;

// How many bytes a place of a user has, all of them, a server's place and all of them.
const USER: usize = 10240;

const PLACES: usize = 163840;

const SERVER: u32 = 16384;

const SERVERS: usize = 65536;

// Where the keys begin in a line's copies.
pub const KEYS: u32 = 75776;

// The run of a line.
pub fn run() -> Run {
    Run {
        servers: 4,
        users: 2,
        first: USER as u32,
        apart: SERVER,
        size: SERVER,
        keys: KEYS,
        second: 0,
        honest: 0,
    }
}

// The memory, zero: nothing is kept, nothing reserved and nothing stored. The `ensures` gives only the length, so that no proof computes
// with the list.
pub fn memory() -> [u8; 429528]
    ensures { 429528 ≡ length result }
{
    [0; 429528]
}

// Lays the users' keys.
pub fn lay_keys(world: &mut [u8]) {
    bytes::put(world, PLACES + SERVERS, &key::of_two());
}

// The copies that a line works on, zero.
pub fn copies() -> [u8; 275928]
    ensures { 275928 ≡ length result }
{
    [0; 275928]
}

// Where a place of a user begins.
fn place_at(k: u32) -> usize {
    USER * (k % 16) as usize
}

// Copies a place, the servers and the keys.
pub fn load(world: &[u8], k: u32, work: &mut [u8]) {
    let place = bytes::front(bytes::from(world, place_at(k)), USER);
    bytes::put2(work, 0, place, bytes::from(world, PLACES));
}

// Leaves a line's copies as a place and the servers.
pub fn keep(world: &mut [u8], k: u32, work: &[u8]) {
    bytes::put(world, place_at(k), bytes::front(work, USER));
    bytes::put(world, PLACES, bytes::from(work, USER));
}

// The users' keys.
pub fn keys(work: &[u8]) -> &[u8] {
    bytes::from(work, KEYS as usize)
}

// The four servers.
pub fn servers(work: &[u8]) -> &[u8] {
    bytes::front(bytes::from(work, USER), SERVERS)
}
