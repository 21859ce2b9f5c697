// The log's name, and users' keys in one slice: the user list, up to 65 public keys, in the first 3,640 bytes, then the key trees of users
// 1, 2 and 3.
ghost use Rattle.std.specs.Prelude.{◌≡◌, ◌<◌, ◌≤◌, length, drop};
ghost use Rattle.lines.specs.Memory.{zeros};
ghost use Rattle.programs.specs.Key.{before as before_of, tree_at, keys_with};

use sha256::bytes;

pub const LOG: [u8; 16] = [
    b'f', b'i', b'r', b'i', b'n', b'g', b' ', b'l', b'o', b'g', b' ', b'n', b'o', b'.', b' ', b'1',
];

// How many bytes a public key has, the list of public keys, a key tree.
pub const PUBLIC: usize = 56;

pub const LIST: usize = 3640;

pub const TREE: usize = 65504;

// The memory of the keys, zero.
pub fn memory() -> [u8; 200152]
    ensures { (200152 ≡ length result) × (result ≡ zeros 200152) }
{
    [0; 200152]
}

// How many users stand before user 1, 2 or 3.
pub fn before(a: u8) -> usize
    ensures { (result ≡ before_of a) × (result < 3) }
{
    (a as usize + 2) % 3
}

// Where the tree of user 1, 2 or 3 stands.
pub fn tree_at(a: u8) -> usize
    ensures { (result ≡ tree_at a) × (result ≤ 134648) }
{
    LIST + TREE * before(a)
}

fn blank_tree() -> [u8; 65504]
    ensures { result ≡ zeros 65504 }
{
    [0; 65504]
}

fn blank_key() -> [u8; 56]
    ensures { result ≡ zeros 56 }
{
    [0; 56]
}

// Makes the key of user 1, 2 or 3, whose seed is the number 32 times and whose I is the number 16 times.
pub fn make(a: u8, keys: &mut [u8])
    ensures { keys.new ≡ keys_with a keys.old }
{
    let mut tree = blank_tree();
    let mut public = blank_key();
    lms::generate(6, 3, [a; 32], [a; 16], &mut tree);
    lms::public_key(6, 3, [a; 16], &tree, &mut public);
    bytes::put(keys, PUBLIC * before(a), &public);
    bytes::put(keys, tree_at(a), &tree);
}

// The memory of the keys, with those of users 1 and 2.
pub fn of_two() -> [u8; 200152]
    ensures { (200152 ≡ length result) × (result ≡ keys_with 2 (keys_with 1 (zeros 200152))) }
{
    let mut keys = memory();
    make(1, &mut keys);
    make(2, &mut keys);
    keys
}

// The key tree of user 1, 2 or 3, with what follows it.
pub fn tree_of(keys: &[u8], a: u8) -> &[u8]
    ensures { result.now ≡ drop (tree_at a) keys.now }
{
    bytes::from(keys, tree_at(a))
}
