// The head as the record that document 01 lends to the server.
ghost use Rattle.tree.specs.Inner.{settings_of};
ghost use Rattle.server.specs.Serve.{served};
ghost use Rattle.server.specs.Inner.{ServesLent};

use super::Head;
use tree::setup::Config;

// What a call on a lent head gives: its code, a number as in `Out`, the store's used length after it, and the length of the answer, 0 where
// none is written.
#[derive(Clone, Copy)]
pub struct Reply {
    pub code: u8,
    pub used: usize,
    pub answered: usize,
}

// One call of the server on a lent head: `serve` on the head that is lent, and the head that it gives in its place.
pub fn serve_lent(
    config: Config,
    users: &[u8],
    head: &mut Head,
    store: &mut [u8],
    used: usize,
    request: &[u8],
    answer: &mut [u8],
) -> Reply
    ensures { ServesLent
        (served (settings_of config users.now) head.old
        store.old used request.now answer.old)
        result head.new store.new answer.new }
{
    let current = *head;
    let out = super::serve(config, users, current, store, used, request, answer);
    *head = out.head;
    Reply {
        code: out.code,
        used: out.used,
        answered: out.answered,
    }
}
