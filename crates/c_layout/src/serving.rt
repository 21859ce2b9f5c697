// The server's call, its head in 79 lent bytes.
ghost use Rattle.std.specs.Prelude.{◌≡◌};
ghost use Rattle.c_layout.specs.Server.{place_bytes, head_bytes, earlier_of, head_of, server_answered, ServerYields};

use super::numbers;
use server::{Earlier, Head, lent};
use sha256::bytes;
use tree::digest;

// A call's code, the length of its answer, 0 where none is written, and the store's used length after it.
#[repr(C)]
#[derive(Clone, Copy)]
pub struct Served {
    pub code: u32,
    pub answer: u32,
    pub used: u64,
}

// The head before it, as the last 40 bytes of a head stand for it.
fn earlier_of(b: &[u8; 79]) -> Earlier
    ensures { result ≡ earlier_of b.now }
{
    Earlier {
        known: b[39] == 1,
        position: bytes::u32_at(b, 40),
        level: b[44],
        author: bytes::u16_at(b, 45),
        digest: digest::piece(bytes::from(b, 47), 0),
    }
}

// The head that 79 bytes stand for. Where the mark does not fit, its position is one that no log has, which 22 refuses.
fn head_of(b: &[u8; 79]) -> Head
    ensures { result ≡ head_of b.now }
{
    let position = if b[39] <= 1 {
        bytes::u32_at(b, 0)
    } else {
        u32::MAX
    };
    Head {
        position,
        level: b[4],
        author: bytes::u16_at(b, 5),
        digest: digest::piece(bytes::from(b, 7), 0),
        earlier: earlier_of(b),
    }
}

// A position, level, author and digest as 39 bytes.
fn place_bytes(position: u32, level: u8, author: u16, digest: &[u8; 32]) -> [u8; 39]
    ensures { result ≡ place_bytes position level author digest.now }
{
    let p = bytes::be4(position);
    let a = bytes::be2(author);
    let first = [p[0], p[1], p[2], p[3], level, a[0], a[1]];
    let mut out = [0u8; 39];
    bytes::put2(&mut out, 0, &first, digest);
    out
}

// A head as 79 bytes.
fn head_bytes(h: Head) -> [u8; 79]
    ensures { result ≡ head_bytes h }
{
    let e = h.earlier;
    let first = place_bytes(h.position, h.level, h.author, &h.digest);
    let rest = place_bytes(e.position, e.level, e.author, &e.digest);
    let mut out = [0u8; 79];
    bytes::put2(&mut out, 0, &first, &[e.known as u8]);
    bytes::put(&mut out, 40, &rest);
    out
}

// One call of the server: takes in a request of any bytes. After a refusal the head and the store are as they were. The parameters are
// those of the C interface, one by one.
pub fn serve(
    servers: u32,
    own: u32,
    log: &[u8; 16],
    users: &[u8],
    head: &mut [u8; 79],
    store: &mut [u8],
    used: u64,
    request: &[u8],
    answer: &mut [u8],
) -> Served
    ensures { ServerYields (server_answered servers own log.now users.now head.old
        store.old used request.now answer.old)
        result head.new store.new answer.new }
{
    let config = numbers::config(servers, own, log);
    let mut h = head_of(head);
    let reply = lent::serve_lent(config, users, &mut h, store, used as usize, request, answer);
    if reply.code == 0 {
        *head = head_bytes(h);
    }
    Served {
        code: reply.code as u32,
        answer: reply.answered as u32,
        used: reply.used as u64,
    }
}
