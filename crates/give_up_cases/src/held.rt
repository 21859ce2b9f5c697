// The message that is held back.
use crate::{report, world};
use exchange::{run, user_step};
use programs::line;
use sha256::bytes;
use std::io;

// Holds a message back.
fn hold(text: &[u8], world: &mut [u8]) {
    let length = bytes::be2((text.len() % 65536) as u16);
    bytes::put2(world, world::LENGTH, &length, text);
}

// Copies the message that is held back to the front of d, and answers its length.
fn held(world: &[u8], d: &mut [u8]) -> usize {
    user_step::load(world, world::MESSAGE, d);
    bytes::u16_at(world, world::LENGTH) as usize
}

// A copy of the request that a user has out is held back.
pub fn hold_request(rt: &impl Print, own: u8, world: &mut [u8]) -> io::Result<()> {
    let mut request = [0u8; 2566];
    let n = run::request_out(own, world, &mut request);
    hold(bytes::front(&request, n), world);
    report::request(rt, run::server_asked(own, world), &request)
}

// The request that a user has out arrives, and the answer is held back.
pub fn hold_answer(rt: &impl Print, own: u8, world: &mut [u8]) -> io::Result<()> {
    let r = world::run(world);
    let mut answer = [0u8; 2552];
    let n = run::asked(r, own, world, &mut answer);
    hold(bytes::front(&answer, n), world);
    report::answer(rt, &answer)
}

// A user takes in the answer that is held back.
pub fn take(rt: &impl Print, own: u8, world: &mut [u8]) -> io::Result<()> {
    let r = world::run(world);
    let mut answer = [0u8; 2552];
    let n = held(world, &mut answer);
    run::step(r, own, 0, 0, bytes::front(&answer, n), world);
    report::step(rt, own, world)
}

// The request that is held back is sent to server 5, with two bytes changed where a line says so: anybody can do this.
pub fn send(rt: &impl Print, f: [u32; 16], world: &mut [u8]) -> io::Result<()> {
    let r = world::run(world);
    let mut request = [0u8; 2566];
    let mut answer = [0u8; 2552];
    let n = held(world, &mut request);
    line::patch(&mut request, 100, 0, f[10], f[11]);
    line::patch(&mut request, 100, 0, f[12], f[13]);
    let sent = bytes::front(&request, n);
    run::served(r, 1, world::HONEST, sent, world, &mut answer);
    report::answer(rt, &answer)
}
