// A folder's lock: a file `lock` with the number of the process that works in the folder. A process that was killed leaves it behind, and
// the next one takes it over; `lock.taking` sees to it that only one does.
ghost use Rattle.std.specs.Prelude.{◌≡◌};

use crate::{file, report};
use std::fs::{File, Files};
use std::io::Write;
use std::process::Process;
use std::{fs, io, process};

// Makes a file that has the own process number; an error where the name is taken.
fn make(rt: &impl Files<File = File>, own: Process, folder: &[u8], name: &[u8]) -> io::Result<()> {
    let mut file = file::create(rt, folder, name)?;
    write_number(own, &mut file)
}

// A number in 64 bits.
fn wide(n: i32) -> i64
    ensures { result ≡ n }
{
    n as i64
}

// The own process number.
fn number_of(own: Process) -> u64 {
    file::or_zero(wide(process::id(own).cast_signed()))
}

// Writes the own process number and a line end.
fn write_number(own: Process, file: &mut File) -> io::Result<()> {
    let number = number_of(own);
    writeln!(file, "{number}")
}

// Whether the lock names a process that is gone. A lock that cannot be read names none.
fn is_left_behind<R: Files<File = File> + Alloc>(rt: &R, own: Process, folder: &[u8]) -> bool {
    let mut text = [0u8; 16];
    let n = file::load(rt, folder, b"lock", &mut text);
    if n == 0 {
        return false;
    }
    let d = lines::read_digits(&text, 0);
    if d.value == 0 {
        return false;
    }
    is_gone(rt, own, d.value).unwrap_or(false)
}

// Whether no process has this number, as /proc tells: not where /proc has the numbers of another container. An error where it is not there.
fn is_gone<R: Files + Alloc>(rt: &R, own: Process, number: u32) -> io::Result<bool> {
    let own_number = format!(in rt.alloc(); "{}", number_of(own))?;
    if fs::read_link(rt, "/proc/self")?.as_str() != own_number.as_str() {
        return Ok(false);
    }
    let entry = format!(in rt.alloc(); "/proc/{number}")?;
    Ok(!fs::exists(rt, entry.as_str())?)
}

// Puts the own lock in the place of one that was left behind, and answers whether it did.
fn replace<R: Files<File = File> + Alloc>(rt: &R, own: Process, folder: &[u8]) -> bool {
    if !is_left_behind(rt, own, folder) {
        return false;
    }
    let _ = file::remove(rt, folder, b"lock.new");
    if make(rt, own, folder, b"lock.new").is_err() {
        return false;
    }
    file::rename(rt, folder, b"lock.new", b"lock").is_ok()
}

// Takes a folder's lock, and answers whether it did. Where it did not, it says why.
pub fn take<R: Files<File = File> + Eprint + Alloc>(rt: &R, own: Process, folder: &[u8]) -> bool {
    if make(rt, own, folder, b"lock").is_ok() {
        return true;
    }
    if !is_left_behind(rt, own, folder) {
        report::line(
            rt,
            "the folder's lock names a process that lives, or cannot be read, or the folder cannot be written: OPERATING, Lock",
        );
        return false;
    }
    if make(rt, own, folder, b"lock.taking").is_err() {
        report::line(
            rt,
            "another process takes the lock over, or was killed while it did: OPERATING, Lock",
        );
        return false;
    }
    let taken = replace(rt, own, folder);
    let _ = file::remove(rt, folder, b"lock.taking");
    if !taken {
        report::line(rt, "another process has taken the folder's lock");
    }
    taken
}

// Gives a folder's lock back.
pub fn give_back(rt: &impl Files, folder: &[u8]) {
    let _ = file::remove(rt, folder, b"lock");
}
