// Labels, owners and waits of the log's nodes; 4294967295 answers what is out of range.
ghost use Rattle.std.specs.Prelude.{◌≡◌};
ghost use Rattle.kozbrax.specs.Tree.{is_position, is_count, first_label_given, owner_given, wait_given};

use crate::NONE;
use tree::label;

// Whether p is a position of a log.
fn is_position(p: u32) -> bool
    ensures { result ≡ is_position p }
{
    (1 <= p) & (p <= 1048576)
}

// Whether n servers can hold a log.
fn is_count(n: u32) -> bool
    ensures { result ≡ is_count n }
{
    (2 <= n) & (n <= 16)
}

// The first label of p's path.
#[unsafe(no_mangle)]
pub extern "C" fn kozbrax_first_label(p: u32) -> u32
    ensures { result ≡ first_label_given p }
{
    if !is_position(p) {
        return NONE;
    }
    label::first_label(p) as u32
}

// The server, of `servers`, that owns node (p, l).
#[unsafe(no_mangle)]
pub extern "C" fn kozbrax_owner(servers: u32, p: u32, l: u32) -> u32
    ensures { result ≡ owner_given servers p l }
{
    if !is_count(servers) || !is_position(p) || l > u32::from(label::lg(p)) {
        return NONE;
    }
    u32::from(label::owner(servers as u8, p, l as u8))
}

// The wait Q(p, N) where N is `servers`.
#[unsafe(no_mangle)]
pub extern "C" fn kozbrax_wait(servers: u32, p: u32) -> u32
    ensures { result ≡ wait_given servers p }
{
    if !is_count(servers) || !is_position(p) {
        return NONE;
    }
    u32::from(label::wait(p, servers as u8))
}
