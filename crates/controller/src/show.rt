// What is printed of calls, entries and the user's state.
use crate::{advice, call};
use c_layout::user_start::Asked;
use firing::entry;
use programs::{print, sentence};
use sha256::bytes;
use state_files::user_file;
use std::io;

// The user's version.
pub fn version(memory: &[u8]) -> u32 {
    bytes::u32_at(memory, user_file::KEPT)
}

// The code that a call gave, and the server's.
fn code(rt: &impl Print, asked: Asked) -> io::Result<()> {
    if asked.code == call::NO_ANSWER {
        return print::number(rt, b"no answer from server ", asked.server as usize);
    }
    if asked.code == call::NOT_SAVED {
        return print::text(rt, b"the state was not saved");
    }
    print::number(rt, b"code ", asked.code as usize)?;
    if asked.code == 11 {
        print::number(rt, b", the server's ", asked.refusal as usize)?;
    }
    Ok(())
}

// What a call gave: its code and the server's, the version and the next signature number; and for a refusal what it says and what to do.
pub fn outcome(rt: &impl Print, asked: Asked, memory: &[u8]) -> io::Result<()> {
    code(rt, asked)?;
    let number = bytes::u32_at(memory, user_file::KEPT + 36);
    print::filled(
        rt,
        b", version #, next signature number #\n",
        &[version(memory), number],
    )?;
    if asked.code < 256 {
        sentence::refusal(rt, (asked.code % 256) as u8, (asked.refusal % 256) as u8)?;
    }
    advice::after(rt, asked.code, asked.refusal, is_signed(memory))
}

// Whether a write is open that is signed: its Commit was handed out.
fn is_signed(memory: &[u8]) -> bool {
    bytes::byte_at(memory, user_file::KEPT + 41) == 1
}

// What an entry holds: its text, what it strikes, or that it is a schedule.
pub fn contents(rt: &impl Print, e: &[u8]) -> io::Result<()> {
    held(rt, e)?;
    print::text(rt, b"\n")
}

fn held(rt: &impl Print, e: &[u8]) -> io::Result<()> {
    let kind = bytes::byte_at(e, 0);
    if kind == 2 {
        return print::number(rt, b"strikes ", entry::target(e) as usize);
    }
    if kind == 3 {
        let segments = bytes::byte_at(e, 1);
        return print::filled(rt, b"a firing schedule of # segments", &[segments as u32]);
    }
    print::text(rt, bytes::from(e, 1))
}

// An entry that was read.
pub fn found(rt: &impl Print, position: u32, author: u32, e: &[u8]) -> io::Result<()> {
    print::filled(rt, b"#, by user #: ", &[position, author])?;
    contents(rt, e)
}

// The entry of the write that is open, and how it can end.
pub fn open_write(rt: &impl Print, memory: &[u8]) -> io::Result<()> {
    if bytes::byte_at(memory, user_file::KEPT + 40) != 1 {
        return Ok(());
    }
    let n = bytes::u16_at(memory, user_file::LENGTH) as usize;
    print::text(rt, b"  open is the write of: ")?;
    contents(rt, bytes::front(bytes::from(memory, user_file::ENTRY), n))?;
    ways_to_end(rt, memory)
}

// How the open write can end: byte 44 of what is kept says that its give-up has begun, byte 43 that its PutOperation was handed out.
fn ways_to_end(rt: &impl Print, memory: &[u8]) -> io::Result<()> {
    if bytes::byte_at(memory, user_file::KEPT + 44) == 1 {
        return print::text(
            rt,
            b"  its give-up has begun: run `give-up` until it is done\n",
        );
    }
    if bytes::byte_at(memory, user_file::KEPT + 43) == 1 {
        return print::text(
            rt,
            b"  it can only be resumed: run its command again, before another user writes\n",
        );
    }
    print::text(
        rt,
        b"  it can be resumed by its command, or given up by `give-up`\n",
    )
}
