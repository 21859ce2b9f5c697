// One call of the server on a place.
ghost use Rattle.std.specs.Prelude.{◌≡◌, length};

use c_layout::serving::Served;
use exchange::server_place;
use programs::{key, line, print};
use sha256::bytes;
use std::io;
use tree::digest;

// How many bytes a server's place, its store and the answer buffer have.
pub const PLACE: usize = 8232;

const STORE: usize = 8144;

const ANSWER: usize = 2552;

// The settings of a call that is not changed: N is 4, the own number is the place's, there are two users. Then the head's position,
// level and author, the used length, and the lengths of the store, the request and the answer buffer. What is at 0 and at 11 means nothing.
pub fn usual(own: u32, request: u32, place: &[u8]) -> [u32; 12] {
    [
        0,
        4,
        own,
        2 * key::PUBLIC as u32,
        bytes::u32_at(place, 0),
        bytes::byte_at(place, server_place::LEVEL) as u32,
        bytes::u16_at(place, server_place::AUTHOR) as u32,
        bytes::u32_at(place, server_place::USED),
        STORE as u32,
        request,
        ANSWER as u32,
        0,
    ]
}

// The call with these settings. What it leaves is printed, and is in the place.
pub fn serve(
    rt: &impl Print,
    s: [u32; 12],
    keys: &[u8],
    place: &mut [u8],
    request: &[u8],
) -> io::Result<()>
    requires { length place.old ≡ 8232 }
{
    lay(s, place);
    let end = server_place::STORE + line::at_most(s[8], STORE);
    let room = line::at_most(s[10], ANSWER);
    let mut answer = [0u8; ANSWER];
    lent(
        rt,
        s,
        keys,
        &mut place[0..end],
        bytes::front(request, s[9] as usize),
        &mut answer[0..room],
    )
}

// Lays the head and the used length of the settings; the digest and the earlier head are the place's.
fn lay(s: [u32; 12], place: &mut [u8]) {
    let author = bytes::be2((s[6] % 65536) as u16);
    bytes::put2(place, 0, &bytes::be4(s[4]), &[(s[5] % 256) as u8]);
    bytes::put(place, server_place::AUTHOR, &author);
    bytes::put(place, server_place::USED, &bytes::be4(s[7]));
}

// The call on a place with a store, and on an answer buffer, of the lengths that the settings name.
fn lent(
    rt: &impl Print,
    s: [u32; 12],
    keys: &[u8],
    place: &mut [u8],
    request: &[u8],
    answer: &mut [u8],
) -> io::Result<()> {
    let users = bytes::front(keys, s[3] as usize);
    let out = server_place::serve(s[1], s[2], users, place, request, answer);
    report(rt, out, place, answer)
}

// What a call gave, and the place and the answer buffer that it left, to the line's end.
fn report(rt: &impl Print, out: Served, place: &[u8], answer: &[u8]) -> io::Result<()> {
    print::number(rt, b": code ", out.code as usize)?;
    report_head(rt, b" head # # # ", place)?;
    report_earlier(rt, place)?;
    print::number(rt, b" used ", out.used as usize)?;
    print::number(rt, b" answered ", out.answer as usize)?;
    print::digest_start(
        rt,
        b" store ",
        sha256::hash(bytes::from(place, server_place::STORE)),
    )?;
    print::digest_start(rt, b" answer ", sha256::hash(answer))?;
    print::text(rt, b"\n")
}

// A head: position, level, author and digest.
fn report_head(rt: &impl Print, what: &[u8], head: &[u8]) -> io::Result<()> {
    let level = bytes::byte_at(head, server_place::LEVEL);
    let author = bytes::u16_at(head, server_place::AUTHOR);
    let position = bytes::u32_at(head, 0);
    print::filled(rt, what, &[position, level as u32, author as u32])?;
    print::digest_start(
        rt,
        b"",
        digest::piece(bytes::from(head, server_place::DIGEST), 0),
    )
}

// The earlier head, where one is known.
fn report_earlier(rt: &impl Print, place: &[u8]) -> io::Result<()> {
    if bytes::byte_at(place, server_place::KNOWN) == 0 {
        return print::text(rt, b" no earlier");
    }
    report_head(
        rt,
        b" earlier # # # ",
        bytes::from(place, server_place::EARLIER),
    )
}
