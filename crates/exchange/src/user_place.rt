// A user's place of 9,198 bytes: what is kept in the first 46 and the call that goes on in the next 82, as `c_layout` has them; the last
// step; then the buffers that are lent. It stands in a slice with the places of other users (`programs::place`) and the users' keys.
ghost use Rattle.std.specs.Prelude.{◌≡◌};
ghost use Rattle.lines.specs.Memory.{zeros};
ghost use Rattle.exchange.specs.UserPlace.{request_of, entry_of, has_ended, forgotten, kept_in, place_layout, made_with, last_start};
ghost use Rattle.exchange.specs.UserPlace.{step_bytes, step_laid, step_on, settled_on};

use crate::user_step;
use crate::user_step::{Layout, StepInput};
use c_layout::user_start;
use c_layout::user_start::{Asked, SettledAnswer};
use programs::{key, place};
use sha256::bytes;

// What is kept, from the place's first byte on: version, digest, number, and whether a write is open and signed; of an open write the
// levels that a Reserve was handed out for, whether its PutOperation was, whether a give-up has begun, and the last server that is done.
pub const DIGEST: usize = 4;

pub const NUMBER: usize = 36;

pub const OPENED: usize = 40;

pub const SIGNED: usize = 41;

pub const LEVELS: usize = 42;

pub const PUT: usize = 43;

pub const BEGUN: usize = 44;

pub const DONE: usize = 45;

pub const CALL: usize = 46;

// The last step: which start came last (1 Update, 2 Write, 3 Read, 4 give-up), the code and the server's, whether the call has ended, the
// author and the length of the entry that a Read found; and the server that was asked last, with the length of the request.
pub const KIND: usize = 128;

pub const CODE: usize = 129;

pub const REFUSAL: usize = 130;

pub const ENDED: usize = 131;

pub const AUTHOR: usize = 132;

pub const LENGTH: usize = 134;

pub const SERVER: usize = 136;

// The buffers.
pub const PATH: usize = 154;

pub const SIGNATURE: usize = 826;

pub const HASHES: usize = 3334;

pub const HELD: usize = 4582;

pub const REQUEST: usize = 5608;

pub const ENTRY: usize = 8174;

// What a step is made with: N, the own number, the kind (1 starts an Update, 2 a Write, 3 a Read, 4 a give-up; 0 takes in an answer), a
// number (of a Write the byte that its randomizer repeats, of a Read the position), and how many bytes of the user list, the key tree, the
// request buffer and the entry buffer are lent.
#[derive(Clone, Copy)]
pub struct PlaceStep {
    pub servers: u32,
    pub own: u32,
    pub kind: u8,
    pub number: u32,
    pub users: u32,
    pub tree: u32,
    pub request: u32,
    pub entry: u32,
}

// The request that was handed out last.
pub fn request_of(place: &[u8]) -> &[u8]
    ensures { result.now ≡ request_of place.now }
{
    bytes::front(
        bytes::from(place, REQUEST),
        bytes::u16_at(place, SERVER + 1) as usize,
    )
}

// The entry that a Read found.
pub fn entry_of(place: &[u8]) -> &[u8]
    ensures { result.now ≡ entry_of place.now }
{
    bytes::front(
        bytes::from(place, ENTRY),
        bytes::u16_at(place, LENGTH) as usize,
    )
}

// Whether the call has ended.
pub fn ended(place: &[u8]) -> bool
    ensures { result ≡ has_ended place.now }
{
    bytes::byte_at(place, ENDED) == 1
}

// Clears all but what is kept, the path and the signature.
pub fn forget(place: &mut [u8])
    ensures { place.new ≡ forgotten place.old }
{
    let call = blank_call();
    let memory = blank_memory();
    bytes::put(place, CALL, &call);
    bytes::put(place, HASHES, &memory);
}

fn blank_call() -> [u8; 108]
    ensures { result ≡ zeros 108 }
{
    [0; 108]
}

fn blank_memory() -> [u8; 5864]
    ensures { result ≡ zeros 5864 }
{
    [0; 5864]
}

// The kind of the start that came last, where a step of a kind comes now.
fn last_start(kind: u8, place: &[u8]) -> u8
    ensures { result ≡ last_start kind place.now }
{
    if kind == 0 {
        return bytes::byte_at(place, KIND);
    }
    kind
}

// The bytes of the last step: which start came last, and what the step gave but the server and the length of its request.
fn step_bytes(last: u8, asked: Asked) -> [u8; 8]
    ensures { result ≡ step_bytes last asked }
{
    let a = bytes::be2((asked.author % 65536) as u16);
    let n = bytes::be2((asked.entry % 65536) as u16);
    [
        last,
        (asked.code % 256) as u8,
        (asked.refusal % 256) as u8,
        (asked.ended % 256) as u8,
        a[0],
        a[1],
        n[0],
        n[1],
    ]
}

// Lays what a step of a kind gave into the place of a user. A call that has ended leaves the server and the length of its last request.
fn keep_step(kind: u8, asked: Asked, user: u8, world: &mut [u8])
    ensures { world.new ≡ step_laid kind asked user world.old }
{
    let at = place::at(user);
    let given = step_bytes(last_start(kind, place::of(user, world)), asked);
    bytes::put(world, at + KIND, &given);
    if asked.ended % 256 == 0 {
        let length = bytes::be2((asked.length % 65536) as u16);
        bytes::put2(world, at + SERVER, &[(asked.server % 256) as u8], &length);
    }
}

// Where the bytes of a user stand whose key has a name, in a slice with the keys from a place on.
fn layout(user: u8, keys: u32, name: u8) -> Layout
    ensures { result ≡ place_layout user keys name }
{
    let at = place::at(user);
    Layout {
        kept: at,
        path: at + PATH,
        signature: at + SIGNATURE,
        call: at + CALL,
        hashes: at + HASHES,
        held: at + HELD,
        request: at + REQUEST,
        entry: at + ENTRY,
        users: keys as usize,
        tree: keys as usize + key::tree_at(name),
    }
}

// What a step is made with: the log of the programs, and a key whose identifier and seed repeat the own number.
fn made_with(s: PlaceStep) -> StepInput
    ensures { result ≡ made_with s }
{
    let name = (s.own % 256) as u8;
    StepInput {
        servers: s.servers,
        own: s.own,
        log: key::LOG,
        id: [name; 16],
        seed: [name; 32],
        randomizer: [(s.number % 256) as u8; 32],
        kind: s.kind,
        position: s.number,
        users: s.users,
        tree: s.tree,
        request: s.request,
        entry: s.entry,
    }
}

// A step on the place of a user, in a slice with the keys from a place on. The input is the entry of a Write, or the answer that is taken
// in.
pub fn step(s: PlaceStep, user: u8, keys: u32, input: &[u8], world: &mut [u8])
    ensures { world.new ≡ step_on s user keys input.now world.old }
{
    let at = layout(user, keys, (s.own % 256) as u8);
    let asked = user_step::on(made_with(s), at, input, world);
    keep_step(s.kind, asked, user, world);
}

// What is kept.
fn kept_of(place: &[u8]) -> [u8; 46]
    ensures { result ≡ kept_in place.now }
{
    let mut kept = [0u8; 46];
    user_step::load(place, 0, &mut kept);
    kept
}

// Whether the own operation at the settings' number is settled.
pub fn settled(s: PlaceStep, keys: &[u8], place: &[u8]) -> SettledAnswer
    ensures { result ≡ settled_on s keys.now place.now }
{
    let log = key::LOG;
    let kept = kept_of(place);
    let users = bytes::front(keys, s.users as usize);
    user_start::settled(s.servers, s.own, &log, users, &kept, s.number)
}
