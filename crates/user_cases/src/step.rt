// One step of a user on its place, with the settings of a line: N is 4, the own number is the place's, two users are listed, and what is
// kept and lent is as usual, unless the line changes it.
use crate::{case, work};
use exchange::user_place::PlaceStep;
use exchange::{user_place, user_step};
use programs::key;
use sha256::bytes;

// The kept version of a line.
pub fn version(text: &[u8], place: &[u8]) -> u32 {
    case::setting(text, 4, bytes::u32_at(place, 0))
}

// A mark of what is kept.
fn mark(text: &[u8], which: u32, place: &[u8], at: usize) -> u8 {
    (case::setting(text, which, bytes::byte_at(place, at) as u32) % 256) as u8
}

// Lays what is kept as a line has it: version, number, whether a write is open and signed.
fn lay(text: &[u8], place: &mut [u8]) {
    let number = case::setting(text, 5, bytes::u32_at(place, user_place::NUMBER));
    let opened = mark(text, 6, place, user_place::OPENED);
    let signed = mark(text, 7, place, user_place::SIGNED);
    let version = bytes::be4(version(text, place));
    bytes::put(place, 0, &version);
    bytes::put2(
        place,
        user_place::NUMBER,
        &bytes::be4(number),
        &[opened, signed],
    );
}

// What a step of a kind is made with.
fn settings(text: &[u8], kind: u8, number: u32) -> PlaceStep {
    PlaceStep {
        servers: case::setting(text, 1, 4),
        own: case::setting(text, 2, 2 - case::number(text, 1) % 2),
        kind,
        number,
        users: case::setting(text, 3, 2 * key::PUBLIC as u32),
        tree: case::setting(text, 9, key::TREE as u32),
        request: case::setting(text, 8, user_step::LONGEST_REQUEST as u32),
        entry: case::setting(text, 10, user_step::LONGEST_ENTRY as u32),
    }
}

// Lays what is kept as a line has it, and hands back what a step of a kind is made with.
pub fn prepare(text: &[u8], kind: u8, number: u32, place: &mut [u8]) -> PlaceStep {
    lay(text, place);
    settings(text, kind, number)
}

// The start of an Update, of a Write of an entry, of a Read or of a give-up, or an answer taken in.
pub fn step(text: &[u8], kind: u8, number: u32, input: &[u8], work: &mut [u8]) {
    let s = prepare(text, kind, number, work);
    user_place::step(s, 1, work::KEYS, input, work);
}
