// A step of a user's call: its start, or an answer that it takes in. The user's memory is one slice of 84,134 bytes: its state
// (`user_file`), the state as it was saved last, the call, its hashes, the held entry, the request, the entry that is read and 256 bytes
// that mean nothing; then how many bytes the list of users has, the user's key (`key`) and the list; N, the own number and the log's name.
use crate::key;
use c_layout::user_start;
use c_layout::user_start::{Asked, SettledAnswer};
use exchange::user_step;
use exchange::user_step::Layout;
use sha256::bytes;
use state_files::arguments::LogArguments;
use state_files::user_file;

// The memory: the state, the state as it was saved last, a call's, the key and the users.
pub const SAVED: usize = 4324;

const CALL: usize = 8648;

const HASHES: usize = 8730;

const HELD: usize = 9978;

pub const REQUEST: usize = 11004;

pub const ENTRY: usize = 13570;

const LISTED: usize = 14850;

const KEY: usize = 14854;

const USERS: usize = 80470;

const SERVERS: usize = 84110;

const OWN: usize = 84114;

const LOG: usize = 84118;

// What a step does: 0 takes in an answer, 1 starts an Update, 2 a Write, 3 a Read of the entry at a position, 4 a give-up.
#[derive(Clone, Copy)]
pub struct Action {
    pub kind: u8,
    pub position: u32,
}

// Lays the user's key and the list of users.
pub fn lay_keys(key: &[u8], users: &[u8], memory: &mut [u8]) {
    let length = bytes::be4((users.len() % 4294967296) as u32);
    bytes::put(memory, LISTED, &length);
    bytes::put2(memory, KEY, key, users);
}

// The public keys of all users.
fn users(memory: &[u8]) -> &[u8] {
    let length = bytes::u32_at(memory, LISTED);
    bytes::front(bytes::from(memory, USERS), length as usize)
}

// Lays N, the own number and the log's name.
pub fn lay_settings(g: LogArguments, memory: &mut [u8]) {
    let log = g.log;
    bytes::put2(memory, SERVERS, &bytes::be4(g.servers), &bytes::be4(g.own));
    bytes::put(memory, LOG, &log);
}

fn log_of(memory: &[u8]) -> [u8; 16] {
    let mut log = [0u8; 16];
    user_step::load(memory, LOG, &mut log);
    log
}

// Whether the own operation at a position is settled.
pub fn settled(position: u32, memory: &[u8]) -> SettledAnswer {
    let mut kept = [0u8; 46];
    user_step::load(memory, user_file::KEPT, &mut kept);
    let log = log_of(memory);
    user_start::settled(
        bytes::u32_at(memory, SERVERS),
        bytes::u32_at(memory, OWN),
        &log,
        users(memory),
        &kept,
        position,
    )
}

// Where a step finds what it is made on.
fn layout() -> Layout {
    Layout {
        kept: user_file::KEPT,
        path: user_file::PATH,
        signature: user_file::SIGNATURE,
        call: CALL,
        hashes: HASHES,
        held: HELD,
        request: REQUEST,
        entry: ENTRY,
        users: USERS,
        tree: KEY + key::TREE,
    }
}

// The randomizer of a Write of an entry; any other step has none.
fn randomizer(kind: u8, entry: &[u8], memory: &[u8]) -> [u8; 32] {
    if kind != 2 {
        return [0; 32];
    }
    let number = bytes::front(bytes::from(memory, user_file::KEPT + 36), 4);
    key::randomizer(bytes::from(memory, KEY), number, entry)
}

// What a step is made with. The input is the entry of a Write, or the answer that is taken in.
fn made_with(step: Action, input: &[u8], memory: &[u8]) -> user_step::StepInput {
    let key = bytes::from(memory, KEY);
    user_step::StepInput {
        servers: bytes::u32_at(memory, SERVERS),
        own: bytes::u32_at(memory, OWN),
        log: log_of(memory),
        id: key::identifier(key),
        seed: key::seed(key),
        randomizer: randomizer(step.kind, input, memory),
        kind: step.kind,
        position: step.position,
        users: bytes::u32_at(memory, LISTED),
        tree: key::TREE_SIZE,
        request: user_step::LONGEST_REQUEST as u32,
        entry: user_step::LONGEST_ENTRY as u32,
    }
}

// A step of a call on a user's state.
pub fn run(step: Action, input: &[u8], memory: &mut [u8]) -> Asked {
    user_step::on(made_with(step, input, memory), layout(), input, memory)
}
