// The arguments that programs of a log share: N, the own number, the log's name and the file of the users' public keys, one after the
// other.
ghost use Rattle.std.specs.Prelude.{◌≡◌};
ghost use Rattle.state_files.specs.Argument.{number_of, is_from, is_user_list, settings_fit};

use crate::file;
use sha256::bytes;
use std::env::{Env, FillError};
use std::fs::{File, Files};

// What a log is set up with: N, the own number, the log's name, filled up with zeros, and the name's length. A number that is misshapen is
// 0, as is the length of a name that is too long.
#[derive(Clone, Copy)]
pub struct LogArguments {
    pub servers: u32,
    pub own: u32,
    pub log: [u8; 16],
    pub name: usize,
}

// How many arguments there are, the program's name with them.
pub fn count(rt: &impl Env) -> usize {
    (0..usize::MAX).take_while(|i| is_there(rt, *i)).count()
}

fn is_there(rt: &impl Env, i: usize) -> bool {
    !matches!(rt.arg(i, &mut []), Err(FillError::NotPresent))
}

// Lays an argument at the front of a buffer, and answers its length: 0 where there is none, and where it is longer than the buffer.
pub fn lay(rt: &impl Env, i: usize, into: &mut [u8]) -> usize {
    rt.arg(i, into).unwrap_or(0)
}

// Whether an argument is a word of at most 8 letters.
pub fn is(rt: &impl Env, i: usize, word: &[u8]) -> bool {
    let mut text = [0u8; 8];
    let n = lay(rt, i, &mut text);
    bytes::same(bytes::front(&text, n), word)
}

// The number that an argument is.
pub fn number(rt: &impl Env, i: usize) -> u32 {
    let mut text = [0u8; 16];
    let n = lay(rt, i, &mut text);
    number_of(bytes::front(&text, n))
}

// The number that a word is, 0 where it is not digits alone.
fn number_of(word: &[u8]) -> u32
    ensures { result ≡ number_of word.now }
{
    let d = lines::read_digits(word, 0);
    if d.next == word.len() {
        return d.value;
    }
    0
}

// N, the own number and the name, in three arguments.
pub fn read_settings(rt: &impl Env, servers: usize, own: usize, name: usize) -> LogArguments {
    let mut log = [0u8; 16];
    let length = lay(rt, name, &mut log);
    LogArguments {
        servers: number(rt, servers),
        own: number(rt, own),
        log,
        name: length,
    }
}

// Reads the file that an argument names to the front of a buffer, and answers how many bytes came.
pub fn load(rt: &(impl Env + Files<File = File>), i: usize, into: &mut [u8]) -> usize {
    let mut path = [0u8; 4096];
    let n = lay(rt, i, &mut path);
    match file::open_path(rt, bytes::front(&path, n)) {
        Ok(mut file) => file::read_full(&mut file, into),
        Err(_) => 0,
    }
}

// Whether the settings are in their ranges, the own number not above `most`: N, the name's length, and the length of the list of users.
pub fn fit(s: LogArguments, most: u32, users: &[u8]) -> bool
    ensures { result ≡ settings_fit s most users.now }
{
    if !is_from(2, 16, s.servers as usize) {
        return false;
    }
    if !is_from(1, most as usize, s.own as usize) {
        return false;
    }
    if s.name < 1 {
        return false;
    }
    is_user_list(users.len())
}

// Whether n is from a least to a greatest number.
fn is_from(least: usize, most: usize, n: usize) -> bool
    ensures { result ≡ is_from least most n }
{
    (least <= n) & (n <= most)
}

// Whether so many bytes are the public keys of 1 to 64 users.
fn is_user_list(n: usize) -> bool
    ensures { result ≡ is_user_list n }
{
    if !is_from(1, 3584, n) {
        return false;
    }
    n % 56 == 0
}
