// A server's place: the head from its first byte on as `c_layout` has it, position, level, author, digest and the earlier head; the store's
// used length; then the store.
ghost use Rattle.std.specs.Prelude.{◌≡◌, ◌≤◌, length};
ghost use Rattle.exchange.specs.ServerPlace.{head_in, head_laid, PlaceYields, place_served};

use c_layout::serving;
use c_layout::serving::Served;
use programs::key;
use sha256::bytes;

// How many bytes the head has, and where its parts stand.
pub const HEAD: usize = 79;

pub const LEVEL: usize = 4;

pub const AUTHOR: usize = 5;

pub const DIGEST: usize = 7;

// Whether an earlier head is known, and that head, laid out like the other one.
pub const KNOWN: usize = 39;

pub const EARLIER: usize = 40;

pub const USED: usize = 80;

pub const STORE: usize = 88;

// The head.
fn head_of(place: &[u8]) -> [u8; 79]
    requires { 88 ≤ length place.now }
    ensures { result ≡ head_in place.now }
{
    let mut head = [0u8; 79];
    bytes::put(&mut head, 0, bytes::front(place, HEAD));
    head
}

// Lays the head and the used length.
fn keep(head: &[u8; 79], used: u64, place: &mut [u8])
    ensures { place.new ≡ head_laid head.now used place.old }
{
    bytes::put(place, 0, head);
    bytes::put(place, USED, &bytes::be4((used % 4294967296) as u32));
}

// One call of a server on its place, whose store goes to the place's end. Where the place has no store nothing is done, and the code is 22.
pub fn serve(
    servers: u32,
    own: u32,
    users: &[u8],
    place: &mut [u8],
    request: &[u8],
    answer: &mut [u8],
) -> Served
    ensures { PlaceYields (place_served servers own users.now place.old request.now
        answer.old) result place.new answer.new }
{
    if place.len() < STORE {
        return Served {
            code: 22,
            answer: 0,
            used: 0,
        };
    }
    let log = key::LOG;
    let mut head = head_of(place);
    let used = bytes::u32_at(place, USED) as u64;
    let served = serving::serve(
        servers,
        own,
        &log,
        users,
        &mut head,
        &mut place[STORE..],
        used,
        request,
        answer,
    );
    keep(&head, served.used, place);
    served
}
