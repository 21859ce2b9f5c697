// The views of both users.
use crate::world;
use exchange::{run, user_place};
use programs::{place, print};
use sha256::bytes;
use std::io;
use tree::label;

// Prints both views, and for how many operations they have parted, against Q. Position 1 is the last that all servers show alike.
pub fn compare(rt: &impl Print, world: &mut [u8]) -> io::Result<()> {
    one(rt, 1, world)?;
    one(rt, 2, world)?;
    let count = parted(world);
    let most = label::wait(2, 5) as u32;
    print::filled(rt, b"; parted for #, Q(2, 5) = #", &[count, most])?;
    if most < count {
        print::text(
            rt,
            b": longer than the rules allow, so the premise is needed",
        )?;
    }
    Ok(())
}

// One view: the author and the letter of each of the first three positions, as the user reads them.
fn one(rt: &impl Print, own: u8, world: &mut [u8]) -> io::Result<()> {
    print::filled(rt, b"; user # reads", &[own as u32])?;
    position(rt, own, 1, world)?;
    position(rt, own, 2, world)?;
    position(rt, own, 3, world)
}

// What a user reads at a position, nothing where the Read is refused.
fn position(rt: &impl Print, own: u8, p: u32, world: &mut [u8]) -> io::Result<()> {
    run::read(world::run(world), own, p, world);
    let place = place::of(own, world);
    if bytes::byte_at(place, user_place::CODE) != 0 {
        return Ok(());
    }
    let author = bytes::u16_at(place, user_place::AUTHOR);
    print::number(rt, b" ", author as usize)?;
    print::text(rt, bytes::from(user_place::entry_of(place), 1))
}

// The operations from position 2 to the end of the shorter view.
fn parted(world: &[u8]) -> u32 {
    let n = run::shorter(1, 2, world);
    if n == 0 {
        return 0;
    }
    n - 1
}
