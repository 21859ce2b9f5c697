// The links to the servers: for server K the files LINKSK.in, to which requests are written, and LINKSK.out, from which answers are read,
// where LINKS is argument 6. A link is opened when its server is first asked: the file for requests first, since a server on named pipes
// opens its input first.
ghost use Rattle.std.specs.Prelude.{◌<◌};

use sha256::bytes;
use state_files::frames::Frame;
use state_files::{arguments, file, frames};
use std::env::Env;
use std::fs::{File, Files, OpenOptions};
use std::io;
use std::io::{Cursor, Write};

// What stands for an answer's length where none came.
pub const NONE: usize = 65536;

// The two files of a server's link.
#[derive(Drop)]
struct Link {
    requests: File,
    answers: File,
}

// The open file of the user's state, and the links that are open, each at the place of its server.
#[derive(Drop)]
pub struct Links {
    state: File,
    servers: [Option<Link>; 32],
}

// Lays k digits and an ending from a place on.
fn lay(digits: &[u8; 20], k: usize, at: usize, ending: &[u8], out: &mut [u8]) {
    bytes::put2(out, at, bytes::front(digits, k), ending);
}

// Lays the name of a server's file: the argument, the server's number and the ending. Answers its length, 0 where it has no room.
fn name(rt: &impl Env, server: u32, ending: &[u8], out: &mut [u8]) -> usize {
    let n = arguments::lay(rt, 6, out);
    if n > 4000 {
        return 0;
    }
    if ending.len() > 4 {
        return 0;
    }
    let mut digits = Cursor::new([0u8; 20]);
    if write!(digits, "{server}").is_err() {
        return 0;
    }
    let k = digits.position() as usize % 32;
    lay(digits.get_ref(), k, n, ending, out);
    n + k + ending.len()
}

// Opens the file of a server's requests for writing, or that of its answers for reading.
fn open_file(rt: &(impl Env + Files<File = File>), server: u32, answers: bool) -> io::Result<File> {
    let mut path = [0u8; 4096];
    if answers {
        let n = name(rt, server, b".out", &mut path);
        return file::open_path(rt, bytes::front(&path, n));
    }
    let n = name(rt, server, b".in", &mut path);
    OpenOptions::new()
        .append(true)
        .open(rt, file::text(bytes::front(&path, n))?)
}

// Where a server's link stands.
fn place(server: u32) -> usize
    ensures { result < 32 }
{
    (server % 32) as usize
}

// The open files at a place.
fn descriptor(links: &mut Links, at: usize) -> Option<&mut Link> {
    links.servers.get_mut(at)?.as_mut()
}

// Keeps the file of the user's state, where no link is open.
pub fn keep_file(state: File) -> Links {
    Links {
        state,
        servers: [const { None }; 32],
    }
}

// The file of the user's state.
pub fn file(links: &Links) -> &File {
    &links.state
}

// Opens both files of a server's link.
fn open_both(rt: &(impl Env + Files<File = File>), server: u32) -> io::Result<Link> {
    let requests = open_file(rt, server, false)?;
    let answers = open_file(rt, server, true)?;
    Ok(Link { requests, answers })
}

// Opens a server's link where it is not open. Whether it is open then.
pub fn open(rt: &(impl Env + Files<File = File>), server: u32, links: &mut Links) -> bool {
    let at = place(server);
    if links.servers[at].is_some() {
        return true;
    }
    match open_both(rt, server) {
        Ok(link) => {
            links.servers[at] = Some(link);
            true
        }
        Err(_) => false,
    }
}

// Sends a request to a server, and reads its answer to the front of a buffer. Answers its length, or that none came.
pub fn ask(server: u32, request: &[u8], links: &mut Links, answer: &mut [u8]) -> usize {
    let Some(link) = descriptor(links, place(server)) else {
        return NONE;
    };
    if !frames::send(&mut link.requests, request) {
        return NONE;
    }
    match frames::receive(&mut link.answers, answer) {
        Frame::Whole(n) => n,
        Frame::End => NONE,
        Frame::Cut => NONE,
    }
}
