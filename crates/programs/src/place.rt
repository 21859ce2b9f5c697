// Places of users 1, 2 and 3, one after the other from the front of a slice.
ghost use Rattle.std.specs.Prelude.{◌≡◌, ◌≤◌, drop};
ghost use Rattle.programs.specs.Key.{place_at};

use crate::key;
use sha256::bytes;

// How many bytes a place has.
pub const SIZE: usize = 16384;

// Where the place of a user begins.
pub fn at(own: u8) -> usize
    ensures { (result ≡ place_at own) × (result ≤ 32768) }
{
    SIZE * key::before(own)
}

// The place of a user, with what follows it.
pub fn of(own: u8, world: &[u8]) -> &[u8]
    ensures { result.now ≡ drop (place_at own) world.now }
{
    bytes::from(world, at(own))
}
