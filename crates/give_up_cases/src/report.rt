// What is printed of steps and requests.
use exchange::user_place;
use programs::{place, print};
use sha256::bytes;
use std::io;
use tree::message;

// A request: the server that it goes to, its kind, and its node.
pub fn request(rt: &impl Print, server: u8, request: &[u8]) -> io::Result<()> {
    print::filled(
        rt,
        b", to server # kind # node (#, #)",
        &[
            server as u32,
            message::request_kind(request) as u32,
            message::request_position(request),
            message::request_level(request) as u32,
        ],
    )
}

// The code of an answer.
pub fn answer(rt: &impl Print, answer: &[u8]) -> io::Result<()> {
    print::number(
        rt,
        b": the server's code ",
        message::answer_code(answer) as usize,
    )
}

// The code of a user's last step and the server's, and its version; of a call that goes on the request that is out.
pub fn step(rt: &impl Print, own: u8, world: &[u8]) -> io::Result<()> {
    let place = place::of(own, world);
    let code = bytes::byte_at(place, user_place::CODE);
    print::number(rt, b": code ", code as usize)?;
    if code == 11 {
        let refusal = bytes::byte_at(place, user_place::REFUSAL);
        print::number(rt, b", server's code ", refusal as usize)?;
    }
    print::number(rt, b", version ", bytes::u32_at(place, 0) as usize)?;
    if !user_place::ended(place) {
        request(
            rt,
            bytes::byte_at(place, user_place::SERVER),
            user_place::request_of(place),
        )?;
    }
    Ok(())
}
