// The user's calls. What is kept is 46 lent bytes, the call that goes on 82. Their parameters are those of the C interface, one by one.
ghost use Rattle.std.specs.Prelude.{◌≡◌};
ghost use Rattle.tree.specs.Setup.{settings};
ghost use Rattle.user.specs.Outcome.{nothing};
ghost use Rattle.c_layout.specs.User.{asked_of, update_begun, read_begun, write_begun, give_up_begun, Begins, WriteBegins};
ghost use Rattle.c_layout.specs.User.{GiveUpBegins, settled_answer};

use super::user_call::Call;
use super::{numbers, user_state};
use user::call::{Found, StepResult};
use user::settled;
use user_give_up::call::GiveUp;
use user_read::call::Read;
use user_update::call::Update;
use user_write::call::Write;

// What a step hands back: its code, the server's code for 11, the server to ask and the length of the request, 0 where the call has ended,
// whether it has, and the author and the entry's length of a Read that ended with 0, else 0.
#[repr(C)]
#[derive(Clone, Copy)]
pub struct Asked {
    pub code: u32,
    pub refusal: u32,
    pub server: u32,
    pub length: u32,
    pub ended: u32,
    pub author: u32,
    pub entry: u32,
}

// Whether an own operation is settled: the code, and 1 or 0.
#[repr(C)]
#[derive(Clone, Copy)]
pub struct SettledAnswer {
    pub code: u32,
    pub settled: u32,
}

impl Asked {
    // What a step's result, and what a Read has found with it, is to the caller.
    pub(crate) fn of(s: StepResult, f: Found) -> Asked
        ensures { result ≡ asked_of s f }
    {
        Asked {
            code: s.code as u32,
            refusal: s.refusal as u32,
            server: s.server as u32,
            length: s.length as u32,
            ended: s.ended as u32,
            author: f.author as u32,
            entry: f.length as u32,
        }
    }

    // The same where nothing is read.
    pub(crate) fn without_entry(s: StepResult) -> Asked
        ensures { result ≡ asked_of s nothing }
    {
        let nothing = Found {
            author: 0,
            length: 0,
        };
        Asked::of(s, nothing)
    }
}

// Starts an Update.
pub fn update_start(
    servers: u32,
    own: u32,
    log: &[u8; 16],
    users: &[u8],
    kept: &[u8; 46],
    call: &mut [u8; 82],
    request: &mut [u8],
) -> Asked
    ensures { Begins (update_begun (settings servers own log.now users.now)
        kept.now call.old request.old)
        result call.new request.new }
{
    let left = Update::start(
        numbers::config(servers, own, log),
        users,
        user_state::kept_of(kept),
        request,
    );
    let step = left.step;
    Call::Updating(left.call).lay(step.code, call);
    Asked::without_entry(step)
}

// Starts a Write of this entry, or resumes the open write of it.
pub fn write_start(
    servers: u32,
    own: u32,
    log: &[u8; 16],
    users: &[u8],
    tree: &[u8],
    entry: &[u8],
    randomizer: &[u8; 32],
    kept: &[u8; 46],
    path: &[u8; 672],
    call: &mut [u8; 82],
    held: &mut [u8; 1026],
    request: &mut [u8],
) -> Asked
    ensures { WriteBegins (write_begun (settings servers own log.now users.now)
        tree.now entry.now randomizer.now kept.now path.now
        call.old held.old request.old)
        result call.new held.new request.new }
{
    let left = Write::start(
        numbers::config(servers, own, log),
        users,
        user_state::kept_of(kept),
        tree,
        entry,
        *randomizer,
        path,
        held,
        request,
    );
    let step = left.step;
    Call::Writing(left.call).lay(step.code, call);
    Asked::without_entry(step)
}

// Starts a Read of the entry at a position; of the entry buffer the length is looked at.
pub fn read_start(
    servers: u32,
    own: u32,
    log: &[u8; 16],
    users: &[u8],
    position: u32,
    kept: &[u8; 46],
    call: &mut [u8; 82],
    request: &mut [u8],
    entry: &[u8],
) -> Asked
    ensures { Begins (read_begun (settings servers own log.now users.now)
        position kept.now call.old request.old entry.now)
        result call.new request.new }
{
    let left = Read::start(
        numbers::config(servers, own, log),
        users,
        user_state::kept_of(kept),
        position,
        request,
        entry,
    );
    let step = left.step;
    Call::Reading(left.call).lay(step.code, call);
    Asked::of(step, left.found)
}

// Starts a give-up of the open write, or repeats one that has begun. What is kept says from then on that it has.
pub fn give_up_start(
    servers: u32,
    own: u32,
    log: &[u8; 16],
    users: &[u8],
    kept: &mut [u8; 46],
    path: &[u8; 672],
    call: &mut [u8; 82],
    request: &mut [u8],
) -> Asked
    ensures { GiveUpBegins (give_up_begun (settings servers own log.now users.now)
        kept.old path.now call.old request.old)
        result kept.new call.new request.new }
{
    let left = GiveUp::start(
        numbers::config(servers, own, log),
        users,
        user_state::kept_of(kept),
        path,
        request,
    );
    let step = left.step;
    user_state::lay_kept(step.code, left.kept, kept);
    Call::GivingUp(left.call).lay(step.code, call);
    Asked::without_entry(step)
}

// Whether the own operation at a position is settled.
pub fn settled(
    servers: u32,
    own: u32,
    log: &[u8; 16],
    users: &[u8],
    kept: &[u8; 46],
    position: u32,
) -> SettledAnswer
    ensures { result ≡ settled_answer (settings servers own log.now users.now) kept.now position }
{
    let given = settled::settled(
        numbers::config(servers, own, log),
        users,
        user_state::kept_of(kept),
        position,
    );
    SettledAnswer {
        code: given.code as u32,
        settled: given.settled as u32,
    }
}
