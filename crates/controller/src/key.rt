// A user's key, in the file `key` of its folder: identifier (16 bytes), seed (32), second secret (32), key tree (65,504) and a check (32).
// The second secret is for randomizers. The public key is in the file `public`.
ghost use Rattle.std.specs.Prelude.{◌≡◌, length};

use sha256::bytes;
use state_files::{file, report, slot};
use std::fs::{File, Files};
use std::io;
use std::random::RandomSource;

// The memory of a key, zero. The `ensures` gives only the length, so that no proof computes with the list.
pub fn memory() -> [u8; 65616]
    ensures { 65616 ≡ length result }
{
    [0; 65616]
}

// Where the tree stands, and how many bytes it has.
pub const TREE: usize = 80;

pub const TREE_SIZE: u32 = 65504;

pub fn identifier(key: &[u8]) -> [u8; 16] {
    let mut id = [0u8; 16];
    bytes::put(&mut id, 0, bytes::front(key, 16));
    id
}

pub fn seed(key: &[u8]) -> [u8; 32] {
    let mut seed = [0u8; 32];
    bytes::put(&mut seed, 0, bytes::front(bytes::from(key, 16), 32));
    seed
}

fn tree(key: &[u8]) -> &[u8] {
    bytes::front(bytes::from(key, TREE), TREE_SIZE as usize)
}

// The randomizer of a signature: a hash of the second secret, the signature number and the entry. So a write that is resumed from the state
// before its signature makes the same signature again.
pub fn randomizer(key: &[u8], number: &[u8], entry: &[u8]) -> [u8; 32] {
    sha256::hash3(bytes::front(bytes::from(key, 48), 32), number, entry)
}

// Loads the key of a folder, and answers whether it is there and whole.
pub fn load(rt: &(impl Files<File = File> + Eprint), folder: &[u8], key: &mut [u8]) -> bool {
    let n = file::load(rt, folder, b"key", key);
    if n == 65616 && slot::is_whole(key, b"") {
        return true;
    }
    report::line(rt, "the folder has no whole key; `key` makes one");
    false
}

// Fills a key with random bytes, its tree and the check; an error where the system does not give the bytes.
fn fill(rt: &impl RandomSource, key: &mut [u8]) -> io::Result<()> {
    let mut random = [0u8; 80];
    rt.fill_bytes(&mut random)?;
    bytes::put(key, 0, &random);
    let id = identifier(key);
    let secret = seed(key);
    let mut tree = [0u8; 65504];
    lms::generate(6, 3, secret, id, &mut tree);
    bytes::put(key, TREE, &tree);
    slot::seal(key, b"");
    Ok(())
}

// Writes the public key of a key, and sees that it is on its device.
fn save_public(rt: &impl Files<File = File>, folder: &[u8], key: &[u8]) -> io::Result<()> {
    let mut public = [0u8; 56];
    lms::public_key(6, 3, identifier(key), tree(key), &mut public);
    file::replace(rt, folder, b"public.new", b"public", &public)
}

// Makes the key of a folder that has none, with a state in which nothing is signed, and answers whether it did. The state comes first: a
// key is never there without it.
pub fn make<R>(rt: &R, folder: &[u8]) -> bool
where
    R: RandomSource + Files<File = File> + Eprint + Alloc,
{
    if !file::is_missing(rt, folder, b"key") {
        report::line(rt, "key: the folder has a key already, or cannot be read");
        return false;
    }
    let mut space = memory();
    let key: &mut [u8] = &mut space;
    if let Err(error) = fill(rt, key) {
        report::failure(rt, "key: no random bytes", error);
        return false;
    }
    match save(rt, folder, key) {
        Ok(()) => true,
        Err(error) => {
            report::failure(rt, "key: the folder cannot be written", error);
            false
        }
    }
}

// Writes the state, the public key and the key, and sees that all are on their device.
fn save(rt: &impl Files<File = File>, folder: &[u8], key: &[u8]) -> io::Result<()> {
    save_state(rt, folder)?;
    save_public(rt, folder, key)?;
    file::replace(rt, folder, b"key.new", b"key", key)
}

// Writes state 1 of a user: all zero, and of no log yet.
fn save_state(rt: &impl Files<File = File>, folder: &[u8]) -> io::Result<()> {
    let mut first = [0u8; 4324];
    slot::advance(&mut first, b"");
    let mut whole = [0u8; 12516];
    bytes::put(&mut whole, 0, &first);
    file::replace(rt, folder, b"state.new", b"state", &whole)
}
