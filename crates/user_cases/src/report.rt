// What is printed of a place after a step.
use crate::{case, step, work};
use exchange::{user_place, user_step};
use programs::print;
use sha256::bytes;
use std::io;
use tree::digest;

// A byte of the place.
fn byte(place: &[u8], at: usize) -> u32 {
    bytes::byte_at(place, at) as u32
}

// The hash of n bytes of the place, after what they are.
fn hash(rt: &impl Print, what: &[u8], place: &[u8], at: usize, n: usize) -> io::Result<()> {
    print::digest_start(
        rt,
        what,
        sha256::hash(bytes::front(bytes::from(place, at), n)),
    )
}

// The code of the last step and the server's, whether its call has ended, and what is kept but for the digest: of an open write the levels
// that a Reserve was handed out for, whether its PutOperation was, whether its give-up has begun, and the last server that is done.
pub fn step(rt: &impl Print, place: &[u8]) -> io::Result<()> {
    print::filled(
        rt,
        b": code # # ended # version # number # opened # signed #",
        &[
            byte(place, user_place::CODE),
            byte(place, user_place::REFUSAL),
            byte(place, user_place::ENDED),
            bytes::u32_at(place, 0),
            bytes::u32_at(place, user_place::NUMBER),
            byte(place, user_place::OPENED),
            byte(place, user_place::SIGNED),
        ],
    )?;
    print::filled(
        rt,
        b" progress # # # #",
        &[
            byte(place, user_place::LEVELS),
            byte(place, user_place::PUT),
            byte(place, user_place::BEGUN),
            byte(place, user_place::DONE),
        ],
    )
}

// The last step, the kept digest, and the SHA-256 of the path, the signature, the call, the call's memory (hashes and held entry), the
// request buffer and the entry buffer; of a Read the author that it found and the length of the entry too.
pub fn state(rt: &impl Print, place: &[u8]) -> io::Result<()> {
    step(rt, place)?;
    let digest = digest::piece(bytes::from(place, user_place::DIGEST), 0);
    print::digest_start(rt, b" digest ", digest)?;
    hash(rt, b" path ", place, user_place::PATH, 672)?;
    hash(rt, b" signature ", place, user_place::SIGNATURE, 2508)?;
    hash(rt, b" call ", place, user_place::CALL, 82)?;
    hash(rt, b" memory ", place, user_place::HASHES, 2274)?;
    hash(
        rt,
        b" request ",
        place,
        user_place::REQUEST,
        user_step::LONGEST_REQUEST,
    )?;
    hash(
        rt,
        b" entry ",
        place,
        user_place::ENTRY,
        user_step::LONGEST_ENTRY,
    )?;
    if bytes::byte_at(place, user_place::KIND) == 3 {
        found(rt, place)?;
    }
    Ok(())
}

// The author and the length of the entry that a Read found.
fn found(rt: &impl Print, place: &[u8]) -> io::Result<()> {
    let author = bytes::u16_at(place, user_place::AUTHOR);
    let length = bytes::u16_at(place, user_place::LENGTH);
    print::filled(rt, b" found # #", &[author as u32, length as u32])
}

// The SHA-256 of the four servers.
pub fn servers(rt: &impl Print, work: &[u8]) -> io::Result<()> {
    print::digest_start(rt, b" servers ", sha256::hash(work::servers(work)))
}

// Whether the position that a line says is settled.
pub fn settled(rt: &impl Print, text: &[u8], work: &mut [u8]) -> io::Result<()> {
    let s = step::prepare(text, 0, case::number(text, 4), work);
    let r = user_place::settled(s, work::keys(work), work);
    print::number(rt, b": code ", r.code as usize)?;
    if r.settled == 1 {
        return print::text(rt, b" settled");
    }
    print::text(rt, b" not settled")
}
