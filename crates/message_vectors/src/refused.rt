// Requests beside the honest run, most of them refused: at least one for each code 1 to 9 and 27. Each line of data/cases.txt is one, and
// data/README.md says what its numbers mean; it counts them from 1, the code from 0.
use crate::{call, world};
use exchange::server_place;
use programs::{file, key, line, print};
use sha256::bytes;
use std::fs::Files;
use std::io;
use tree::message;

// All requests, one after the other.
pub fn requests(rt: &(impl Files + Print + Eprint), world: &mut [u8]) -> io::Result<()> {
    let mut room = [0u8; 4096];
    let n = file::read(rt, &mut room)?;
    rows(rt, bytes::front(&room, n), world)
}

fn rows(rt: &impl Print, text: &[u8], world: &mut [u8]) -> io::Result<()> {
    let mut at: usize = 0;
    while at < text.len() {
        let rest = bytes::from(text, at);
        let n = lines::find(rest, b'\n');
        row(rt, bytes::front(rest, n), world)?;
        at += n + 1;
    }
    Ok(())
}

// Prints the name of a line, and sends its request to a server.
fn row(rt: &impl Print, text: &[u8], world: &mut [u8]) -> io::Result<()> {
    let name = bytes::front(text, lines::find(text, b':'));
    let rest = bytes::from(text, name.len() + 2);
    let numbers = bytes::front(rest, lines::find(rest, b'='));
    print::text(rt, b"\nRequest: ")?;
    print::text(rt, name)?;
    print::text(rt, b"\n")?;
    send(
        rt,
        line::numbers(numbers),
        bytes::from(rest, numbers.len() + 1),
        world,
    )
}

// Sends the request of a line on as many bytes of the server's place as it says.
fn send(rt: &impl Print, f: [u32; 16], text: &[u8], world: &mut [u8]) -> io::Result<()> {
    let server = (f[0] % 256) as u8;
    let mut space = [0u8; 2566];
    let mut answer = [0u8; 2552];
    let request: &mut [u8] = &mut space;
    let n = lay(f, text, world::server(server, world), request);
    let whole = bytes::front(request, n - line::at_most(f[8], n));
    call::ask(rt, server, room(f[9]), whole, world, &mut answer)?;
    Ok(())
}

// How many bytes of a place are lent, where 0 stands for all.
fn room(lent: u32) -> u32 {
    if lent == 0 {
        return world::PLACE as u32;
    }
    lent
}

// Lays the request of a line to a server with this place, and answers its length.
fn lay(f: [u32; 16], text: &[u8], place: &[u8], request: &mut [u8]) -> usize {
    let kind = (f[1] % 256) as u8;
    let author = (f[2] % 65536) as u16;
    let header = message::request_header(kind, key::LOG, author, f[3], (f[4] % 256) as u8);
    let body = [(f[6] % 256) as u8; 2540];
    let count = line::at_most(f[5], 2540);
    let n = 26 + count + text.len();
    bytes::put(request, 0, &header);
    bytes::put2(request, 26, bytes::front(&body, count), text);
    let digest = bytes::from(place, server_place::DIGEST);
    bytes::put(
        request,
        26,
        bytes::front(digest, 32 * line::at_most(f[7], 1)),
    );
    line::patch(request, 100, 0, f[10], f[11]);
    n
}
