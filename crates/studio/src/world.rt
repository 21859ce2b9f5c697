// All places and keys in one slice: in the first 65,536 bytes the places of users 1, 2 and 3, 16,384 bytes each; then 65,536 bytes for each
// copy of each server, first the servers 1 to 16, then their second copies; then the users' keys. Behind the users' places stands
// what the run is.
ghost use Rattle.std.specs.Prelude.{◌≡◌, length};

use c_layout::user_start::SettledAnswer;
use exchange::run::{Call, Run};
use exchange::{run, user_place, user_step};
use programs::{key, place};
use sha256::bytes;

// How many bytes a server's place has, and where the second copies and the keys begin.
const PLACE: u32 = 65536;

const SECOND: u32 = 1048576;

const KEYS: u32 = 2162688;

// Where the length of the longest view when the second copies began stands, and of the run: N, how far the second copies are behind, and
// the server that has none.
const COMMON: usize = 49152;

const SERVERS: usize = 49156;

const FORKED: usize = 49157;

const HONEST: usize = 49161;

// The memory of all places and keys, zero. The `ensures` gives only the length, so that no proof computes with the list.
pub fn zeros() -> [u8; 2362840]
    ensures { 2362840 ≡ length result }
{
    [0; 2362840]
}

// The run as it goes on.
fn run(world: &[u8]) -> Run {
    Run {
        servers: bytes::byte_at(world, SERVERS),
        users: 3,
        first: PLACE,
        apart: PLACE,
        size: PLACE,
        keys: KEYS,
        second: bytes::u32_at(world, FORKED),
        honest: bytes::byte_at(world, HONEST),
    }
}

// N.
pub fn servers(world: &[u8]) -> u8 {
    bytes::byte_at(world, SERVERS)
}

// Whether every server but one shows user 2 a second copy.
pub fn is_forked(world: &[u8]) -> bool {
    bytes::u32_at(world, FORKED) != 0
}

// The server that shows all users the same then.
pub fn honest(world: &[u8]) -> u8 {
    bytes::byte_at(world, HONEST)
}

// A user's call, and how many answers it took in.
pub fn call(c: Call, input: &[u8], world: &mut [u8]) -> u32 {
    run::make(run(world), c, input, world)
}

// A user's Read of a position, to its end, and how many answers it took in.
pub fn read(own: u8, position: u32, world: &mut [u8]) -> u32 {
    run::read(run(world), own, position, world)
}

// Whether a user's own operation at a position is settled.
pub fn settled(own: u8, position: u32, world: &[u8]) -> SettledAnswer {
    let r = run(world);
    let asked = run::settings(r, own, 0, position);
    user_place::settled(asked, run::keys(r, world), place::of(own, world))
}

// From now on there are n servers, which all follow the rules.
pub fn set_servers(n: u8, world: &mut [u8]) {
    bytes::put(world, SERVERS, &[n, 0, 0, 0, 0, 0]);
}

// From now on every server but one shows user 2 its second copy, which begins as the server is.
pub fn fork(honest: u8, world: &mut [u8]) {
    copy(world);
    let common = bytes::be4(longest(world));
    bytes::put(world, COMMON, &common);
    bytes::put2(world, FORKED, &bytes::be4(SECOND), &[honest]);
}

// The length of the longest view when the second copies began.
pub fn common(world: &[u8]) -> u32 {
    bytes::u32_at(world, COMMON)
}

// Makes the keys of the three users.
pub fn make_keys(world: &mut [u8]) {
    let mut keys = key::of_two();
    key::make(3, &mut keys);
    bytes::put(world, KEYS as usize, &keys);
}

// Whether a user's write is open.
pub fn is_open(own: u8, world: &[u8]) -> bool {
    bytes::byte_at(place::of(own, world), user_place::OPENED) == 1
}

// Whether any user's write is open.
pub fn some_open(world: &[u8]) -> bool {
    if is_open(1, world) {
        return true;
    }
    if is_open(2, world) {
        return true;
    }
    is_open(3, world)
}

// The length of the longest view.
fn longest(world: &[u8]) -> u32 {
    greater(
        run::version(1, world),
        greater(run::version(2, world), run::version(3, world)),
    )
}

fn greater(a: u32, b: u32) -> u32 {
    if a < b {
        return b;
    }
    a
}

// A new log: users have version 0 and no write open, and servers nothing reserved and nothing stored.
pub fn begin(world: &mut [u8]) {
    begin_user(1, world);
    begin_user(2, world);
    begin_user(3, world);
    begin_servers(world);
}

// The number of a user's next signature is kept, since a key makes each signature once.
fn begin_user(own: u8, world: &mut [u8]) {
    let at = place::at(own);
    bytes::put(world, at, &[0u8; 36]);
    bytes::put(world, at + user_place::OPENED, &[0u8; 6]);
}

fn begin_servers(world: &mut [u8]) {
    let none = [0u8; 65536];
    let mut k: usize = 0;
    while k < 32 {
        k += 1;
        bytes::put(world, 65536 * k, &none);
    }
}

// The servers' second copies begin as the servers are.
fn copy(world: &mut [u8]) {
    let mut space = [0u8; 65536];
    let one: &mut [u8] = &mut space;
    let mut k: usize = 0;
    while k < 16 {
        k += 1;
        user_step::load(world, 65536 * k, one);
        bytes::put(world, 65536 * (k + 16), one);
    }
}
