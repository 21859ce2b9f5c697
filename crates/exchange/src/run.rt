// One run of a log in one slice: at its front the places of users 1, 2 and 3 (`programs::place`); the servers' places, one after the other,
// and second copies of them, where servers show users different things; and the users' keys (`programs::key`).
ghost use Rattle.std.specs.Prelude.{◌≤◌};

use crate::user_place::PlaceStep;
use crate::{server_place, user_place, user_step};
use programs::{key, place};
use sha256::bytes;

// N and how many users are listed; where the first server's place begins, how far apart two of them begin and how many bytes each has;
// where the keys begin. Then how far behind its place the copy of a server begins that the even users are shown, 0 where there is none, and
// the server that shows all users the same.
#[derive(Clone, Copy)]
pub struct Run {
    pub servers: u8,
    pub users: u8,
    pub first: u32,
    pub apart: u32,
    pub size: u32,
    pub keys: u32,
    pub second: u32,
    pub honest: u8,
}

// A call: the user, the kind of its start (1 an Update, 2 a Write, 3 a Read, 4 a give-up), a number (of a Write the byte that its
// randomizer repeats, of a Read the position), and how many answers it takes in at most.
#[derive(Clone, Copy)]
pub struct Call {
    pub own: u8,
    pub kind: u8,
    pub number: u32,
    pub most: u32,
}

// More answers than any call takes in.
pub const ALL: u32 = 99;

// How many operations a user's view has.
pub fn version(own: u8, world: &[u8]) -> u32 {
    bytes::u32_at(place::of(own, world), 0)
}

// How many the shorter of two users' views has.
pub fn shorter(a: u8, b: u8, world: &[u8]) -> u32 {
    let n = version(a, world);
    if n < version(b, world) {
        return n;
    }
    version(b, world)
}

// The users' keys.
pub fn keys(r: Run, world: &[u8]) -> &[u8] {
    bytes::from(world, r.keys as usize)
}

// What a step of a kind is made with.
pub fn settings(r: Run, own: u8, kind: u8, number: u32) -> PlaceStep {
    PlaceStep {
        servers: r.servers as u32,
        own: own as u32,
        kind,
        number,
        users: key::PUBLIC as u32 * r.users as u32,
        tree: key::TREE as u32,
        request: user_step::LONGEST_REQUEST as u32,
        entry: user_step::LONGEST_ENTRY as u32,
    }
}

// One step of a user.
pub fn step(r: Run, own: u8, kind: u8, number: u32, input: &[u8], world: &mut [u8]) {
    user_place::step(settings(r, own, kind, number), own, r.keys, input, world);
}

// Where the place begins that a user's request to a server goes to.
pub fn server_at(r: Run, own: u8, server: u8) -> usize
    ensures { result ≤ 73014444015 }
{
    let at = r.first as usize + times(r.apart, (server as usize + 15) % 16);
    if own % 2 == 1 {
        return at;
    }
    if server == r.honest {
        return at;
    }
    at + r.second as usize
}

// The product with a number below 16.
fn times(n: u32, k: usize) -> usize
    requires { k ≤ 15 }
    ensures { result ≤ 64424509425 }
{
    n as usize * k
}

// Copies the user list to the front of d, and answers its length.
fn listed(r: Run, world: &[u8], d: &mut [u8]) -> usize {
    user_step::load(world, r.keys as usize, d);
    key::PUBLIC * r.users as usize
}

// The answer of a server to a request of a user, and its length: 0 where the slice has no such server.
pub fn served(
    r: Run,
    own: u8,
    server: u8,
    request: &[u8],
    world: &mut [u8],
    answer: &mut [u8],
) -> usize {
    let at = server_at(r, own, server);
    let end = at + r.size as usize;
    if world.len() < end {
        return 0;
    }
    let mut list = [0u8; 3640];
    let n = listed(r, world, &mut list);
    let users = bytes::front(&list, n);
    let out = server_place::serve(
        r.servers as u32,
        server as u32,
        users,
        &mut world[at..end],
        request,
        answer,
    );
    out.answer as usize
}

// Copies the request that a user has out to the front of d, and answers its length.
pub fn request_out(own: u8, world: &[u8], d: &mut [u8]) -> usize {
    let request = user_place::request_of(place::of(own, world));
    bytes::put(d, 0, request);
    request.len()
}

// The server that a user asks.
pub fn server_asked(own: u8, world: &[u8]) -> u8 {
    bytes::byte_at(place::of(own, world), user_place::SERVER)
}

// The answer of the server that a user asks, and its length.
pub fn asked(r: Run, own: u8, world: &mut [u8], answer: &mut [u8]) -> usize {
    let mut request = [0u8; 2566];
    let n = request_out(own, world, &mut request);
    let server = server_asked(own, world);
    served(r, own, server, bytes::front(&request, n), world, answer)
}

// One answer of the server that a user asks, taken in.
fn turn(r: Run, own: u8, world: &mut [u8]) {
    let mut answer = [0u8; 2552];
    let n = asked(r, own, world, &mut answer);
    step(r, own, 0, 0, bytes::front(&answer, n), world);
}

// Takes in at most this many answers, until the call ends, and answers how many they were, a refused one too.
pub fn answers(r: Run, own: u8, most: u32, world: &mut [u8]) -> u32 {
    let mut taken: u32 = 0;
    while taken < most {
        if user_place::ended(place::of(own, world)) {
            return taken;
        }
        turn(r, own, world);
        taken += 1;
    }
    taken
}

// Makes a call, and answers how many answers it took in. The input is the entry of a Write.
pub fn make(r: Run, c: Call, input: &[u8], world: &mut [u8]) -> u32 {
    step(r, c.own, c.kind, c.number, input, world);
    answers(r, c.own, c.most, world)
}

// A Read of a position, to its end, and how many answers it took in.
pub fn read(r: Run, own: u8, position: u32, world: &mut [u8]) -> u32 {
    let c = Call {
        own,
        kind: 3,
        number: position,
        most: ALL,
    };
    make(r, c, b"", world)
}
