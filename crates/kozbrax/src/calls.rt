// The server's and the user's calls, over the bytes that are lent. Each takes its buffers and settings one by one, as C passes them.
ghost use Rattle.std.specs.Prelude.{◌≡◌};
ghost use Rattle.tree.specs.Setup.{settings};
ghost use Rattle.user.specs.Outcome.{key_of};
ghost use Rattle.c_layout.specs.Server.{server_answered, ServerYields};
ghost use Rattle.c_layout.specs.User.{update_begun, write_begun, read_begun, give_up_begun, Begins, WriteBegins};
ghost use Rattle.c_layout.specs.User.{GiveUpBegins, user_lent, UserYields, user_answered, settled_answer};

use c_layout::serving::Served;
use c_layout::user_start::{Asked, SettledAnswer};
use c_layout::{serving, user_answer, user_start};

// One call of the server: takes in a request of any bytes. After a refusal the head and the store are as they were.
#[unsafe(no_mangle)]
pub extern "C" fn kozbrax_server(
    servers: u32,
    own: u32,
    log: &[u8; 16],
    users: &[u8],
    head: &mut [u8; 79],
    store: &mut [u8],
    used: u64,
    request: &[u8],
    answer: &mut [u8],
) -> Served
    ensures { ServerYields (server_answered servers own log.now users.now head.old
        store.old used request.now answer.old)
        result head.new store.new answer.new }
{
    serving::serve(servers, own, log, users, head, store, used, request, answer)
}

// Starts an Update.
#[unsafe(no_mangle)]
pub extern "C" fn kozbrax_update_start(
    servers: u32,
    own: u32,
    log: &[u8; 16],
    users: &[u8],
    kept: &[u8; 46],
    call: &mut [u8; 82],
    request: &mut [u8],
) -> Asked
    ensures { Begins (update_begun (settings servers own log.now users.now)
        kept.now call.old request.old)
        result call.new request.new }
{
    user_start::update_start(servers, own, log, users, kept, call, request)
}

// Starts a Write of this entry, or resumes the open write of it.
#[unsafe(no_mangle)]
pub extern "C" fn kozbrax_write_start(
    servers: u32,
    own: u32,
    log: &[u8; 16],
    users: &[u8],
    tree: &[u8],
    entry: &[u8],
    randomizer: &[u8; 32],
    kept: &[u8; 46],
    path: &[u8; 672],
    call: &mut [u8; 82],
    held: &mut [u8; 1026],
    request: &mut [u8],
) -> Asked
    ensures { WriteBegins (write_begun (settings servers own log.now users.now)
        tree.now entry.now randomizer.now kept.now path.now
        call.old held.old request.old)
        result call.new held.new request.new }
{
    user_start::write_start(
        servers, own, log, users, tree, entry, randomizer, kept, path, call, held, request,
    )
}

// Starts a Read of the entry at a position; of the entry buffer the length is looked at.
#[unsafe(no_mangle)]
pub extern "C" fn kozbrax_read_start(
    servers: u32,
    own: u32,
    log: &[u8; 16],
    users: &[u8],
    position: u32,
    kept: &[u8; 46],
    call: &mut [u8; 82],
    request: &mut [u8],
    entry: &[u8],
) -> Asked
    ensures { Begins (read_begun (settings servers own log.now users.now)
        position kept.now call.old request.old entry.now)
        result call.new request.new }
{
    user_start::read_start(
        servers, own, log, users, position, kept, call, request, entry,
    )
}

// Starts a give-up of the open write, or repeats one that has begun. What is kept says from then on that it has.
#[unsafe(no_mangle)]
pub extern "C" fn kozbrax_give_up_start(
    servers: u32,
    own: u32,
    log: &[u8; 16],
    users: &[u8],
    kept: &mut [u8; 46],
    path: &[u8; 672],
    call: &mut [u8; 82],
    request: &mut [u8],
) -> Asked
    ensures { GiveUpBegins (give_up_begun (settings servers own log.now users.now)
        kept.old path.now call.old request.old)
        result kept.new call.new request.new }
{
    user_start::give_up_start(servers, own, log, users, kept, path, call, request)
}

// Takes in an answer: hands out the call's next request, or ends the call.
#[unsafe(no_mangle)]
pub extern "C" fn kozbrax_take(
    servers: u32,
    own: u32,
    log: &[u8; 16],
    users: &[u8],
    id: &[u8; 16],
    seed: &[u8; 32],
    tree: &[u8],
    answer: &[u8],
    kept: &mut [u8; 46],
    path: &mut [u8; 672],
    signature: &mut [u8; 2508],
    call: &mut [u8; 82],
    hashes: &mut [u8; 1248],
    held: &mut [u8; 1026],
    request: &mut [u8],
    entry: &mut [u8],
) -> Asked
    ensures { UserYields (user_answered (settings servers own log.now users.now)
        (user_lent kept.old path.old signature.old call.old hashes.old
        held.old request.old entry.old)
        (key_of id.now seed.now tree.now) answer.now)
        result (user_lent kept.new path.new signature.new call.new hashes.new
        held.new request.new entry.new) }
{
    user_answer::take(
        servers, own, log, users, id, seed, tree, answer, kept, path, signature, call, hashes,
        held, request, entry,
    )
}

// Whether the own operation at a position is settled.
#[unsafe(no_mangle)]
pub extern "C" fn kozbrax_settled(
    servers: u32,
    own: u32,
    log: &[u8; 16],
    users: &[u8],
    kept: &[u8; 46],
    position: u32,
) -> SettledAnswer
    ensures { result ≡ settled_answer (settings servers own log.now users.now) kept.now position }
{
    user_start::settled(servers, own, log, users, kept, position)
}
