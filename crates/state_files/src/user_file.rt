// The file `state` of a user: slot 1 at byte 0 and slot 2 at byte 8,192. A slot of 4,324 bytes has the state's number, the setup's hash,
// what the user keeps with path and signature, the entry of its last write with its length, and the check.
ghost use Rattle.std.specs.Prelude.{◌≡◌, []};
ghost use Rattle.state_files.specs.Slot.{advanced};
ghost use Rattle.state_files.specs.Older.{user_is_older, user_now};

use crate::{file, report, slot};
use sha256::bytes;
use std::fs::File;
use std::io;

pub const SETUP: usize = 8;

pub const KEPT: usize = 40;

pub const PATH: usize = 86;

pub const SIGNATURE: usize = 758;

pub const LENGTH: usize = 3266;

pub const ENTRY: usize = 3268;

pub const SECOND: u32 = 8192;

// Saves the next state of a user, and sees that it is on its device. The slot is that of the next state in any case.
pub fn save(file: &File, s: &mut [u8]) -> io::Result<()>
    ensures { s.new ≡ advanced s.old [] }
{
    slot::advance(s, b"");
    file::write_at(file, s, slot::place(slot::number_at(s, 0), SECOND))?;
    file.sync_all()
}

// Whether a slot is of version 0.1.0, in which 42 bytes were kept: whole as that laid it, and not as slots are laid now.
fn is_older(s: &[u8; 4324]) -> bool
    ensures { result ≡ user_is_older s.now }
{
    if slot::is_whole(s, b"") {
        return false;
    }
    slot::is_whole(bytes::front(s, 4320), b"")
}

// Lays a slot of version 0.1.0 as slots are laid now, and leaves any other as it is. A write that is open can be resumed, but not given up:
// whether its PutOperation was handed out is not known.
fn renew(s: &mut [u8; 4324])
    ensures { s.new ≡ user_now s.old }
{
    if !is_older(s) {
        return;
    }
    let old = *s;
    let opened = old[80];
    let progress = [opened, opened, 0, 0];
    bytes::put2(s, 82, &progress, bytes::front(bytes::from(&old, 82), 4206));
    slot::seal(s, b"");
}

// Reads the slot at a place, and answers whether it could be read: that of version 0.1.0 has 4,320 bytes.
fn read_slot(file: &File, at: u32, s: &mut [u8; 4324]) -> bool {
    let n = file::read_from(file, at, s);
    renew(s);
    n == 4324 || n == 4320
}

// Copies the slot that counts to s, and answers whether there is one.
fn choose(rt: &impl Eprint, first: &[u8; 4324], second: &[u8; 4324], s: &mut [u8]) -> bool {
    let one = slot::is_whole(first, b"");
    let two = slot::is_whole(second, b"");
    report::cut_slots(rt, first, one, second, two);
    slot::choose(first, one, second, two, s)
}

// Loads the state that counts to s, and answers whether there is one. A file that cannot be read whole has none: a slot that was not read
// is not taken for one that was cut.
pub fn load(rt: &impl Eprint, file: &File, s: &mut [u8]) -> bool {
    let mut first = [0u8; 4324];
    let mut second = [0u8; 4324];
    if !read_slot(file, 0, &mut first) {
        return false;
    }
    if !read_slot(file, SECOND, &mut second) {
        return false;
    }
    choose(rt, &first, &second, s)
}

// Whether one of the two slots is of version 0.1.0, whose programs would go on from it.
pub fn has_older(file: &File) -> bool {
    is_older_at(file, 0) || is_older_at(file, SECOND)
}

fn is_older_at(file: &File, at: u32) -> bool {
    let mut s = [0u8; 4324];
    file::read_from(file, at, &mut s);
    is_older(&s)
}
