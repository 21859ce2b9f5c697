// Servers that keep two copies of the log, one for the odd users and one for the even ones: where the users' views differ, and which
// refusal shows it.
ghost use Rattle.std.specs.Prelude.{◌≤◌};

use crate::{report, world};
use exchange::{run, user_place};
use programs::{place, print};
use sha256::bytes;
use std::io;

// From now on every server but one keeps two copies.
pub fn begin(rt: &impl Print, honest: u32, world: &mut [u8]) -> io::Result<()> {
    if world::is_forked(world) {
        return print::text(rt, b"  the log is forked already\n");
    }
    world::fork((honest % 256) as u8, world);
    report::forked(
        rt,
        world::servers(world),
        world::honest(world),
        world::common(world),
    )
}

// What is to be said after a user's Update or Write on a forked log.
pub fn after(rt: &impl Print, own: u8, open_before: bool, world: &mut [u8]) -> io::Result<()> {
    let operation = report::next(run::version(own, world));
    notice(rt, own, operation, open_before, world)?;
    if world::is_forked(world) {
        compare(rt, own, own % 3 + 1, world)?;
        compare(rt, own, (own % 3 + 1) % 3 + 1, world)?;
    }
    Ok(())
}

// Says whether the refusal of a user's last step, at an operation, shows the fork.
pub fn notice(
    rt: &impl Print,
    own: u8,
    operation: u32,
    open_before: bool,
    world: &[u8],
) -> io::Result<()> {
    if !world::is_forked(world) {
        return Ok(());
    }
    let place = place::of(own, world);
    let code = bytes::byte_at(place, user_place::CODE);
    if !shows(code, bytes::byte_at(place, user_place::REFUSAL)) {
        return Ok(());
    }
    if open_before && may_wait(code) {
        return print::text(
            rt,
            b"  a write was open, which can be the reason: this alone does not show the fork\n",
        );
    }
    report::noticed(
        rt,
        world::servers(world),
        world::common(world),
        own,
        operation,
    )
}

// Whether a refusal shows that a server broke the rules, where no write was open. Servers that all follow them give no answer that a
// user refuses with 10, 12 to 16 or 23, and themselves refuse nothing but a record for which a store has no room.
fn shows(code: u8, refusal: u8) -> bool {
    match code {
        10 => true,
        11 => refusal != 9,
        12..=16 => true,
        23 => true,
        _ => false,
    }
}

// Whether an open write can be the reason of a refusal: of 11, since servers have a head whose Commit they do not have, and of 12 where its
// give-up was cut, since servers are told in the order of their numbers and some heads are behind then.
fn may_wait(code: u8) -> bool {
    code == 11 || code == 12
}

// Compares the views of two users: says where their reads differ first, if they do.
fn compare(rt: &impl Print, a: u8, b: u8, world: &mut [u8]) -> io::Result<()> {
    let shorter = run::shorter(a, b, world);
    let d = first_difference(a, b, shorter, world);
    if d != 0 {
        report::difference(
            rt,
            world::servers(world),
            a,
            b,
            d,
            report::next(shorter - d),
        )?;
    }
    Ok(())
}

// The first position up to `shorter` that two users read differently; 0 where there is none.
fn first_difference(a: u8, b: u8, shorter: u32, world: &mut [u8]) -> u32
    ensures { result ≤ shorter }
{
    let mut p: u32 = 0;
    while p < shorter {
        p += 1;
        world::read(a, p, world);
        world::read(b, p, world);
        if differ(place::of(a, world), place::of(b, world)) {
            return p;
        }
    }
    0
}

// Whether two users have read a position, and another author or entry there.
fn differ(one: &[u8], two: &[u8]) -> bool {
    if bytes::byte_at(one, user_place::CODE) != 0 {
        return false;
    }
    if bytes::byte_at(two, user_place::CODE) != 0 {
        return false;
    }
    if bytes::u16_at(one, user_place::AUTHOR) != bytes::u16_at(two, user_place::AUTHOR) {
        return true;
    }
    !bytes::same(user_place::entry_of(one), user_place::entry_of(two))
}
