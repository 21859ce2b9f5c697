// A whole call: each request is sent once the user's state is saved, until the call has ended or an answer is refused.
use crate::links::Links;
use crate::step::Action;
use crate::{links, step};
use c_layout::user_start::Asked;
use exchange::user_step;
use sha256::bytes;
use state_files::user_file;
use std::env::Env;
use std::fs::{File, Files};
use std::io;

// What a call gives beside the codes of the log: the state could not be saved; a server gave no answer.
pub const NOT_SAVED: u32 = 1000;

pub const NO_ANSWER: u32 = 1001;

// What a call gives that has ended with a code of its own.
fn ended(code: u32, server: u32) -> Asked {
    Asked {
        code,
        refusal: 0,
        server,
        length: 0,
        ended: 1,
        author: 0,
        entry: 0,
    }
}

// Whether the user's state is as it was saved last.
fn is_saved(memory: &[u8]) -> bool {
    let last = bytes::front(bytes::from(memory, step::SAVED), step::SAVED);
    bytes::same(bytes::front(memory, step::SAVED), last)
}

// Saves the user's state where it is not as it was saved last, and sees that it is on its device.
pub fn save(links: &Links, memory: &mut [u8]) -> io::Result<()> {
    if is_saved(memory) {
        return Ok(());
    }
    save_now(links, memory)
}

// Where a slot is of version 0.1.0, saves the state to both, so that its programs find none to go on from, and sees that the state is on
// its device. A save that is cut leaves the same state in the other slot.
pub fn replace_older(links: &Links, memory: &mut [u8]) -> io::Result<()> {
    if !user_file::has_older(links::file(links)) {
        return Ok(());
    }
    save_now(links, memory)?;
    save_now(links, memory)
}

// Saves the user's state, and sees that it is on its device.
fn save_now(links: &Links, memory: &mut [u8]) -> io::Result<()> {
    let mut state = [0u8; 4324];
    user_step::load(memory, 0, &mut state);
    let saved = user_file::save(links::file(links), &mut state);
    bytes::put(memory, 0, &state);
    bytes::put(memory, step::SAVED, &state);
    saved
}

// Sends the request that a step handed out, and reads the answer. Answers its length, 65,536 where none came.
fn ask(
    rt: &(impl Env + Files<File = File>),
    links: &mut Links,
    asked: Asked,
    memory: &[u8],
    answer: &mut [u8],
) -> usize {
    if !links::open(rt, asked.server, links) {
        return links::NONE;
    }
    let request = bytes::front(bytes::from(memory, step::REQUEST), asked.length as usize);
    links::ask(asked.server, request, links, answer)
}

// Sends the request that a step handed out, and takes in the answer.
fn exchange(
    rt: &(impl Env + Files<File = File>),
    links: &mut Links,
    asked: Asked,
    memory: &mut [u8],
) -> Asked {
    if save(links, memory).is_err() {
        return ended(NOT_SAVED, 0);
    }
    let mut answer = [0u8; 4096];
    let n = ask(rt, links, asked, memory, &mut answer);
    if n == links::NONE {
        return ended(NO_ANSWER, asked.server);
    }
    let taken = Action {
        kind: 0,
        position: 0,
    };
    step::run(taken, bytes::front(&answer, n), memory)
}

// A call from its start to its end: the input is the entry of a Write. No call takes more than 128 answers.
pub fn run(
    rt: &(impl Env + Files<File = File>),
    links: &mut Links,
    start: Action,
    input: &[u8],
    memory: &mut [u8],
) -> Asked {
    let mut asked = step::run(start, input, memory);
    for _ in 0..128 {
        if asked.ended == 1 {
            break;
        }
        asked = exchange(rt, links, asked, memory);
    }
    if save(links, memory).is_err() {
        return ended(NOT_SAVED, 0);
    }
    asked
}
