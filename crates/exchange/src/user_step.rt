// A step of a user: the start of a call, or an answer that it takes in. The buffers are loaded from a slice, lent to a call of `c_layout`,
// and laid as it leaves them.
ghost use Rattle.std.specs.Prelude.{◌≡◌, List, ℕ};
ghost use Rattle.c_layout.specs.User.{user_lent, UserYields};
ghost use Rattle.exchange.specs.UserStep.{loaded, start_lent, step_lent, users_in, tree_in, lent_in, laid3, CallYields, StepYields};
ghost use Rattle.exchange.specs.UserStep.{step_made};

use c_layout::user_start::Asked;
use c_layout::{user_answer, user_start};
use programs::line;
use sha256::bytes;

// What a step is made with: N, the own number, the log's name; the own key's identifier and seed, and a Write's randomizer; the kind (1
// starts an Update, 2 a Write, 3 a Read, 4 a give-up; 0 takes in an answer) and a Read's position; and how many bytes are lent of the user
// list, the key tree, the request buffer and the entry buffer.
#[derive(Clone, Copy)]
pub struct StepInput {
    pub servers: u32,
    pub own: u32,
    pub log: [u8; 16],
    pub id: [u8; 16],
    pub seed: [u8; 32],
    pub randomizer: [u8; 32],
    pub kind: u8,
    pub position: u32,
    pub users: u32,
    pub tree: u32,
    pub request: u32,
    pub entry: u32,
}

// Where a user's bytes stand in a slice: what is kept, the path and the signature; the call, its hashes, what it holds, the request and the
// entry; the user list and the key tree.
#[derive(Clone, Copy)]
pub struct Layout {
    pub kept: usize,
    pub path: usize,
    pub signature: usize,
    pub call: usize,
    pub hashes: usize,
    pub held: usize,
    pub request: usize,
    pub entry: usize,
    pub users: usize,
    pub tree: usize,
}

// The longest request and entry.
pub const LONGEST_REQUEST: usize = 2566;

pub const LONGEST_ENTRY: usize = 1024;

// Fills d with the bytes of a slice from `at` on.
pub fn load(s: &[u8], at: usize, d: &mut [u8])
    ensures { d.new ≡ loaded s.now at d.old }
{
    bytes::put(d, 0, bytes::front(bytes::from(s, at), d.len()));
}

// The start of a call. A give-up's changes what is kept, a Write's what is held.
fn start(
    s: StepInput,
    users: &[u8],
    tree: &[u8],
    input: &[u8],
    kept: &mut [u8; 46],
    path: &[u8; 672],
    call: &mut [u8; 82],
    held: &mut [u8; 1026],
    request: &mut [u8],
    entry: &[u8],
) -> Asked
    ensures { (signature hashes : List ℕ) → UserYields (start_lent s users.now tree.now input.now
        (user_lent kept.old path.now signature call.old hashes held.old request.old
        entry.now)) result (user_lent kept.new path.now signature call.new hashes held.new
        request.new entry.now) }
{
    let n = s.servers;
    let own = s.own;
    let log = s.log;
    if s.kind == 1 {
        return user_start::update_start(n, own, &log, users, kept, call, request);
    }
    if s.kind == 3 {
        let p = s.position;
        return user_start::read_start(n, own, &log, users, p, kept, call, request, entry);
    }
    if s.kind == 4 {
        return user_start::give_up_start(n, own, &log, users, kept, path, call, request);
    }
    let random = s.randomizer;
    user_start::write_start(
        n, own, &log, users, tree, input, &random, kept, path, call, held, request,
    )
}

// The step with everything lent.
fn lent(
    s: StepInput,
    users: &[u8],
    tree: &[u8],
    input: &[u8],
    kept: &mut [u8; 46],
    path: &mut [u8; 672],
    signature: &mut [u8; 2508],
    call: &mut [u8; 82],
    hashes: &mut [u8; 1248],
    held: &mut [u8; 1026],
    request: &mut [u8],
    entry: &mut [u8],
) -> Asked
    ensures { UserYields (step_lent s users.now tree.now input.now
        (user_lent kept.old path.old signature.old call.old hashes.old
        held.old request.old entry.old)) result (user_lent kept.new path.new
        signature.new call.new hashes.new held.new request.new entry.new) }
{
    if s.kind != 0 {
        return start(
            s, users, tree, input, kept, path, call, held, request, entry,
        );
    }
    let log = s.log;
    let id = s.id;
    let seed = s.seed;
    user_answer::take(
        s.servers, s.own, &log, users, &id, &seed, tree, input, kept, path, signature, call,
        hashes, held, request, entry,
    )
}

// The user list and the key tree that are lent.
fn users_of(s: StepInput, at: Layout, world: &[u8]) -> &[u8]
    ensures { result.now ≡ users_in s at world.now }
{
    bytes::front(bytes::from(world, at.users), s.users as usize)
}

fn tree_of(s: StepInput, at: Layout, world: &[u8]) -> &[u8]
    ensures { result.now ≡ tree_in s at world.now }
{
    bytes::front(bytes::from(world, at.tree), s.tree as usize)
}

// Lays the call, its hashes and what it holds.
fn lay_call(at: Layout, call: &[u8; 82], hashes: &[u8; 1248], held: &[u8; 1026], world: &mut [u8])
    ensures { world.new ≡ laid3 at.call call.now at.hashes hashes.now
        at.held held.now world.old }
{
    bytes::put(world, at.call, call);
    bytes::put(world, at.hashes, hashes);
    bytes::put(world, at.held, held);
}

// Lays what is kept, the path and the signature.
fn lay_state(
    at: Layout,
    kept: &[u8; 46],
    path: &[u8; 672],
    signature: &[u8; 2508],
    world: &mut [u8],
)
    ensures { world.new ≡ laid3 at.kept kept.now at.path path.now at.signature
        signature.now world.old }
{
    bytes::put(world, at.kept, kept);
    bytes::put(world, at.path, path);
    bytes::put(world, at.signature, signature);
}

// The step with what is kept lent; the call and its memory are loaded and laid.
fn on_call(
    s: StepInput,
    at: Layout,
    input: &[u8],
    kept: &mut [u8; 46],
    path: &mut [u8; 672],
    signature: &mut [u8; 2508],
    world: &mut [u8],
) -> Asked
    ensures { CallYields at world.old (step_lent s (users_in s at world.old) (tree_in s at world.old)
        input.now (lent_in s at kept.old path.old signature.old world.old))
        result kept.new path.new signature.new world.new }
{
    let n = line::at_most(s.request, LONGEST_REQUEST);
    let k = line::at_most(s.entry, LONGEST_ENTRY);
    let mut call = [0u8; 82];
    let mut hashes = [0u8; 1248];
    let mut held = [0u8; 1026];
    let mut room = [0u8; 2566];
    let mut room_2 = [0u8; 1024];
    let request = &mut room[0..n];
    let entry = &mut room_2[0..k];
    load(world, at.call, &mut call);
    load(world, at.hashes, &mut hashes);
    load(world, at.held, &mut held);
    load(world, at.request, request);
    load(world, at.entry, entry);
    let asked = lent(
        s,
        users_of(s, at, world),
        tree_of(s, at, world),
        input,
        kept,
        path,
        signature,
        &mut call,
        &mut hashes,
        &mut held,
        request,
        entry,
    );
    lay_call(at, &call, &hashes, &held, world);
    bytes::put(world, at.request, request);
    bytes::put(world, at.entry, entry);
    asked
}

// A step of a user whose bytes stand in a slice. The input is the entry of a Write, or the answer that is taken in.
pub fn on(s: StepInput, at: Layout, input: &[u8], world: &mut [u8]) -> Asked
    ensures { StepYields at world.old (step_made s at input.now world.old) result world.new }
{
    let mut kept = [0u8; 46];
    let mut path = [0u8; 672];
    let mut signature = [0u8; 2508];
    load(world, at.kept, &mut kept);
    load(world, at.path, &mut path);
    load(world, at.signature, &mut signature);
    let asked = on_call(s, at, input, &mut kept, &mut path, &mut signature, world);
    lay_state(at, &kept, &path, &signature, world);
    asked
}
