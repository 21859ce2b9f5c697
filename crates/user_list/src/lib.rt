// The user list: users' public keys, 56 bytes each, one behind the other, users numbered from 1; what is asked of it, and every length that
// follows from a key.
#![tactic(auto)]

ghost use Rattle.std.specs.Prelude.{◌≡◌, leb};
ghost use Rattle.user_list.specs.Users.{user_key, is_listed, list_fits, group_fits, signature_length, tree_length};
ghost use Rattle.user_list.specs.Users.{signature_count, least_request, least_answer};

use sha256::bytes;

// How long each key is in the list.
const KEY_LENGTH: usize = 56;

// How long a signature is: every key is of one type.
const SIGNATURE_LENGTH: u16 = 2508;

// How long a buffer has to be for the longest request, 58 bytes and a signature, and for the longest answer, 44 bytes and one.
const LEAST_REQUEST: usize = 58 + SIGNATURE_LENGTH as usize;

const LEAST_ANSWER: usize = 44 + SIGNATURE_LENGTH as usize;

// Whether a list is whole keys of 1 to 64 users.
fn list_fits(users: &[u8]) -> bool
    ensures { result ≡ list_fits users.now }
{
    let count = users.len() / KEY_LENGTH;
    (users.len() % KEY_LENGTH == 0) & (1 <= count) & (count <= 64)
}

// Whether N servers and a list of users make a group: N is 2 to 16, and the list fits.
pub fn group_fits(servers: u8, users: &[u8]) -> bool
    ensures { result ≡ group_fits servers users.now }
{
    (2 <= servers) & (servers <= 16) & list_fits(users)
}

// The key of user a.
pub fn key(users: &[u8], a: u16) -> &[u8]
    ensures { result.now ≡ user_key users.now a }
{
    let place = KEY_LENGTH * a.saturating_sub(1) as usize;
    bytes::front(bytes::from(users, place), KEY_LENGTH)
}

// Whether a is one of the users. No division: the scan of a store asks it of each record.
pub fn is_listed(users: &[u8], a: u16) -> bool
    ensures { result ≡ is_listed users.now a }
{
    (1 <= a) & (KEY_LENGTH * a as usize <= users.len())
}

// The length of user a's signatures.
pub fn signature_length(users: &[u8], a: u16) -> u16
    ensures { result ≡ signature_length users.now a }
{
    SIGNATURE_LENGTH
}

// The length of the tree of user a's key.
pub fn tree_length(users: &[u8], a: u16) -> usize
    ensures { result ≡ tree_length users.now a }
{
    65504
}

// How many signatures user a's key makes.
pub fn signature_count(users: &[u8], a: u16) -> u32
    ensures { result ≡ signature_count users.now a }
{
    1024
}

// Whether a lent buffer of this length has room for the longest request.
pub fn request_room(length: usize) -> bool
    ensures { result ≡ leb least_request length }
{
    LEAST_REQUEST <= length
}

// Whether one has room for the longest answer.
pub fn answer_room(length: usize) -> bool
    ensures { result ≡ leb least_answer length }
{
    LEAST_ANSWER <= length
}
