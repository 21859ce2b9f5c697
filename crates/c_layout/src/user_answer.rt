// An answer taken in by the user's call that 82 lent bytes stand for.
ghost use Rattle.std.specs.Prelude.{◌≡◌, length};
ghost use Rattle.tree.specs.Setup.{settings};
ghost use Rattle.tree.specs.Inner.{settings_of};
ghost use Rattle.user_list.specs.Users.{longest_signature};
ghost use Rattle.user.specs.Outcome.{Key, key_of};
ghost use Rattle.user_calls.specs.Calls.{idle, updating, writing, reading, giving_up};
ghost use Rattle.c_layout.specs.User.{user_lent, UserYields, answered_by, user_answered};
ghost use Rattle.c_layout.specs.Inner.{lent_bytes, SameBuffers};

use super::user_call::Call;
use super::user_start::Asked;
use super::{numbers, user_state};
use tree::setup::Config;
use user::ask;
use user_give_up::call::GiveUp;
use user_read::call::Read;
use user_update::call::Update;
use user_write::call::{OwnKey, Write};

// All that is lent to a user's call to be written to: what is kept, the path and the signature of the open write, the call, its hashes and
// the entry that it holds, the buffer for requests, and the one for an entry that is read. The signature is a slice with a `requires` and
// no array, since an array would ask more of `take`'s callers.
#[derive(Drop)]
pub struct Buffers<'a> {
    pub kept: &'a mut [u8; 46],
    pub path: &'a mut [u8; 672],
    pub signature: &'a mut [u8],
    pub call: &'a mut [u8; 82],
    pub hashes: &'a mut [u8; 1248],
    pub held: &'a mut [u8; 1026],
    pub request: &'a mut [u8],
    pub entry: &'a mut [u8],
}

// An answer taken in by an Update.
fn update_answer(u: Update, config: Config, users: &[u8], answer: &[u8], m: &mut Buffers) -> Asked
    ensures same { SameBuffers m.old m.new }
    ensures yields { (key : Key)
        → UserYields (answered_by (settings_of config users.now) (lent_bytes m.old) key (updating u) answer.now)
        result (lent_bytes m.new) }
{
    let k = user_state::kept_of(m.kept);
    let left = u.take(config, users, k, answer, m.hashes, m.request);
    let step = left.step;
    user_state::lay_kept(step.code, left.kept, m.kept);
    Call::Updating(left.call).lay(step.code, m.call);
    Asked::without_entry(step)
}

// An answer taken in by a Write.
fn write_answer(
    w: Write,
    config: Config,
    users: &[u8],
    key: &OwnKey,
    answer: &[u8],
    m: &mut Buffers,
) -> Asked
    requires { length m.old.signature.now ≡ longest_signature }
    ensures same { SameBuffers m.old m.new }
    ensures yields { UserYields (answered_by (settings_of config users.now) (lent_bytes m.old)
        (key_of key.now.id.now key.now.seed.now key.now.tree.now) (writing w) answer.now)
        result (lent_bytes m.new) }
{
    let k = user_state::kept_of(m.kept);
    let left = w.take(
        config,
        users,
        k,
        key,
        answer,
        m.path,
        m.signature,
        m.hashes,
        m.held,
        m.request,
    );
    let step = left.step;
    user_state::lay_kept(step.code, left.kept, m.kept);
    Call::Writing(left.call).lay(step.code, m.call);
    Asked::without_entry(step)
}

// An answer taken in by a Read.
fn read_answer(r: Read, config: Config, users: &[u8], answer: &[u8], m: &mut Buffers) -> Asked
    ensures same { SameBuffers m.old m.new }
    ensures yields { (key : Key)
        → UserYields (answered_by (settings_of config users.now) (lent_bytes m.old) key (reading r) answer.now)
        result (lent_bytes m.new) }
{
    let k = user_state::kept_of(m.kept);
    let left = r.take(
        config, users, k, answer, m.hashes, m.held, m.request, m.entry,
    );
    let step = left.step;
    Call::Reading(left.call).lay(step.code, m.call);
    Asked::of(step, left.found)
}

// An answer taken in by a give-up.
fn give_up_answer(g: GiveUp, config: Config, users: &[u8], answer: &[u8], m: &mut Buffers) -> Asked
    ensures same { SameBuffers m.old m.new }
    ensures yields { (key : Key)
        → UserYields (answered_by (settings_of config users.now) (lent_bytes m.old) key (giving_up g) answer.now)
        result (lent_bytes m.new) }
{
    let k = user_state::kept_of(m.kept);
    let left = g.take(config, users, k, answer, m.path, m.request);
    let step = left.step;
    user_state::lay_kept(step.code, left.kept, m.kept);
    Call::GivingUp(left.call).lay(step.code, m.call);
    Asked::without_entry(step)
}

// An answer to no call's request.
fn stray_answer(config: Config, users: &[u8], answer: &[u8], m: &Buffers) -> Asked
    ensures { (key : Key)
        → UserYields (answered_by (settings_of config users.now) (lent_bytes m.now) key idle answer.now)
        result (lent_bytes m.now) }
{
    let k = user_state::kept_of(m.kept);
    let room = user_list::request_room(m.request.len());
    let refusal = ask::judge_stray(config, users, k, room);
    Asked::without_entry(ask::refused(refusal.number(), answer))
}

// An answer taken in by the call that its bytes stand for, or by none.
fn call_answer(
    servers: u32,
    own: u32,
    log: &[u8; 16],
    users: &[u8],
    key: &OwnKey,
    answer: &[u8],
    m: &mut Buffers,
) -> Asked
    requires { length m.old.signature.now ≡ longest_signature }
    ensures same { SameBuffers m.old m.new }
    ensures yields { UserYields (user_answered (settings servers own log.now users.now) (lent_bytes m.old)
        (key_of key.now.id.now key.now.seed.now key.now.tree.now) answer.now)
        result (lent_bytes m.new) }
{
    let config = numbers::config(servers, own, log);
    match Call::of(m.call) {
        Call::Updating(u) => update_answer(u, config, users, answer, m),
        Call::Writing(w) => write_answer(w, config, users, key, answer, m),
        Call::Reading(r) => read_answer(r, config, users, answer, m),
        Call::GivingUp(g) => give_up_answer(g, config, users, answer, m),
        Call::Idle => stray_answer(config, users, answer, m),
    }
}

// Takes in an answer: hands out the call's next request, or ends the call. The parameters are those of the C interface, one by one.
pub fn take(
    servers: u32,
    own: u32,
    log: &[u8; 16],
    users: &[u8],
    id: &[u8; 16],
    seed: &[u8; 32],
    tree: &[u8],
    answer: &[u8],
    kept: &mut [u8; 46],
    path: &mut [u8; 672],
    signature: &mut [u8],
    call: &mut [u8; 82],
    hashes: &mut [u8; 1248],
    held: &mut [u8; 1026],
    request: &mut [u8],
    entry: &mut [u8],
) -> Asked
    requires { length signature.old ≡ longest_signature }
    ensures { UserYields (user_answered (settings servers own log.now users.now)
        (user_lent kept.old path.old signature.old call.old hashes.old
        held.old request.old entry.old)
        (key_of id.now seed.now tree.now) answer.now)
        result (user_lent kept.new path.new signature.new call.new hashes.new
        held.new request.new entry.new) }
{
    let mut m = Buffers {
        kept,
        path,
        signature,
        call,
        hashes,
        held,
        request,
        entry,
    };
    let key = OwnKey { id, seed, tree };
    call_answer(servers, own, log, users, &key, answer, &mut m)
}
