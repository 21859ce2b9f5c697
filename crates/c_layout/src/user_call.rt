// The bytes of a user's calls.
ghost use Rattle.std.specs.Prelude.{◌≡◌, ◌∷◌, ◌++◌};
ghost use Rattle.sha256.specs.Bytes.{be};
ghost use Rattle.user_calls.specs.Calls.{reading};
ghost use Rattle.c_layout.specs.Mark.{mark_of};
ghost use Rattle.c_layout.specs.User.{update_bytes, update_of, write_of, read_of, give_up_of, call_of, call_bytes, call_after};
ghost use Rattle.c_layout.specs.Inner.{call_meant};

use sha256::bytes;
use tree::digest;
use user_give_up::call::GiveUp;
use user_read::call::Read;
use user_update::call::Update;
use user_write::call::Write;

// A user's call, or none.
#[derive(Clone, Copy)]
pub enum Call {
    Idle,
    Updating(Update),
    Writing(Write),
    Reading(Read),
    GivingUp(GiveUp),
}

impl Call {
    // The call that bytes stand for, by the first of them, a number of the C interface. A Write or give-up whose mark is above 1 is none.
    pub fn of(b: &[u8; 82]) -> Call
        ensures { call_meant result ≡ call_of b.now }
    {
        match b[0] {
            1 => Call::Updating(update_of(b)),
            2 if b[46] <= 1 => Call::Writing(write_of(b)),
            3 => Call::Reading(read_of(b)),
            4 if b[1] <= 1 => Call::GivingUp(give_up_of(b)),
            _ => Call::Idle,
        }
    }

    // Lays the call's bytes after a step, where the step's code is 0. Those past the ones of its kind stay as they are.
    pub fn lay(self, code: u8, call: &mut [u8; 82])
        ensures { call.new ≡ call_after code (call_bytes (call_meant self)) call.old }
    {
        if code != 0 {
            return;
        }
        match self {
            Call::Idle => {}
            Call::Updating(u) => bytes::put(call, 0, &update_bytes(1, u)),
            Call::Writing(w) => bytes::put2(call, 0, &update_bytes(2, w.update), &write_rest(w)),
            Call::Reading(r) => bytes::put(call, 0, &read_bytes(r)),
            Call::GivingUp(g) => bytes::put(call, 0, &[4, g.waits as u8]),
        }
    }
}

// The Update that a call's bytes stand for.
fn update_of(b: &[u8; 82]) -> Update
    ensures { result ≡ update_of b.now }
{
    Update {
        answers: b[1],
        greatest: bytes::u32_at(b, 2),
        least: bytes::u32_at(b, 6),
        position: bytes::u32_at(b, 10),
        digest: digest::piece(bytes::from(b, 14), 0),
    }
}

// The kind of a call and its Update as bytes.
fn update_bytes(kind: u8, u: Update) -> [u8; 46]
    ensures { result ≡ kind ∷ update_bytes u }
{
    let g = bytes::be4(u.greatest);
    let l = bytes::be4(u.least);
    let p = bytes::be4(u.position);
    let first = [
        kind, u.answers, g[0], g[1], g[2], g[3], l[0], l[1], l[2], l[3], p[0], p[1], p[2], p[3],
    ];
    let mut out = [0u8; 46];
    bytes::put2(&mut out, 0, &first, &u.digest);
    out
}

// The Write that a call's bytes stand for.
fn write_of(b: &[u8; 82]) -> Write
    ensures { result ≡ write_of b.now }
{
    Write {
        update: update_of(b),
        opened: b[46] == 1,
        answers: b[47],
        randomizer: digest::piece(bytes::from(b, 48), 0),
        length: bytes::u16_at(b, 80) as usize,
    }
}

// The bytes of a Write after its Update.
fn write_rest(w: Write) -> [u8; 36]
    ensures { result ≡ mark_of w.opened ∷ w.answers ∷ (w.randomizer ++ be 2 w.length) }
{
    let n = bytes::be2((w.length % 65536) as u16);
    let mut out = [0u8; 36];
    bytes::put2(&mut out, 0, &[w.opened as u8, w.answers], &w.randomizer);
    bytes::put(&mut out, 34, &n);
    out
}

// The Read that a call's bytes stand for.
fn read_of(b: &[u8; 82]) -> Read
    ensures { result ≡ read_of b.now }
{
    Read {
        position: bytes::u32_at(b, 1),
        answers: b[5],
        length: bytes::u16_at(b, 6),
    }
}

// The bytes of a Read.
fn read_bytes(r: Read) -> [u8; 8]
    ensures { result ≡ call_bytes (reading r) }
{
    let p = bytes::be4(r.position);
    let n = bytes::be2(r.length);
    [3, p[0], p[1], p[2], p[3], r.answers, n[0], n[1]]
}

// The give-up that a call's bytes stand for.
fn give_up_of(b: &[u8; 82]) -> GiveUp
    ensures { result ≡ give_up_of b.now }
{
    GiveUp { waits: b[1] == 1 }
}
