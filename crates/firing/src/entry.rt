// The shapes of entries (document 01, 'User'; document 02, d): what inserts, what strikes, and how long each may be.
ghost use Rattle.std.specs.Prelude.{◌≡◌};
ghost use Rattle.firing.specs.Entry.{strikes, entry_fits, target_of};

use sha256::bytes;

// 19's shape: whether an entry inserts, strikes or holds a firing, and has a length that it may have.
pub fn fits(entry: &[u8]) -> bool
    ensures { result ≡ entry_fits entry.now }
{
    let first = bytes::byte_at(entry, 0);
    (1 <= entry.len()) & (entry.len() <= 1024) & ((first == 1) | is_strike(entry) | (first == 3))
}

// Whether an entry strikes: the byte 2 and a position.
pub fn is_strike(entry: &[u8]) -> bool
    ensures { result ≡ strikes entry.now }
{
    (bytes::byte_at(entry, 0) == 2) & (entry.len() == 5)
}

// The position that an entry strikes, 0 for an insertion: what the board's list of targets has for it.
pub fn target(entry: &[u8]) -> u32
    ensures { result ≡ target_of entry.now }
{
    if is_strike(entry) {
        bytes::u32_at(entry, 1)
    } else {
        0
    }
}
