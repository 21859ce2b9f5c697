// A user's board: the standing insertions of its view.
ghost use Rattle.std.specs.Prelude.{◌≡◌, ◌≤◌, length};

use crate::{report, world};
use exchange::{run, user_place};
use firing::entry;
use programs::{line, place};
use std::io;

// Reads a user's whole view and prints its board, or the first refusal of a read. The stores have room for fewer than 512 Commits.
pub fn show(rt: &impl Print, own: u8, world: &mut [u8]) -> io::Result<()> {
    let n = line::at_most(run::version(own, world), 512);
    let mut space = [0u32; 512];
    let targets: &mut [u32] = &mut space;
    let refused = read_targets(rt, own, n, world, targets)?;
    report::board(rt, own, n as u32)?;
    if refused {
        return Ok(());
    }
    let mut marks = [0u32; 512];
    let standing: &mut [u32] = &mut marks;
    entry_board::board(targets, standing);
    print(rt, own, n, world, standing)
}

// Reads the first n entries and lays their targets into a list, 0 for an insertion. A read that is refused is printed, and ends it.
fn read_targets(
    rt: &impl Print,
    own: u8,
    n: usize,
    world: &mut [u8],
    targets: &mut [u32],
) -> io::Result<bool>
    requires { (n ≤ 512) × (length targets.old ≡ 512) }
{
    let mut k: usize = 0;
    while k < n {
        let p = (k % 512) as u32 + 1;
        world::read(own, p, world);
        if report::refused_read(rt, p, place::of(own, world))? {
            return Ok(true);
        }
        targets[k] = entry::target(user_place::entry_of(place::of(own, world)));
        k += 1;
    }
    Ok(false)
}

// Prints the entries among the first n that are marked.
fn print(rt: &impl Print, own: u8, n: usize, world: &mut [u8], standing: &[u32]) -> io::Result<()>
    requires { (n ≤ 512) × (length standing.now ≡ 512) }
{
    let mut k: usize = 0;
    while k < n {
        let p = (k % 512) as u32 + 1;
        print_marked(rt, own, standing[k], p, world)?;
        k += 1;
    }
    Ok(())
}

// Prints the entry of a position, where its mark is 1.
fn print_marked(rt: &impl Print, own: u8, mark: u32, p: u32, world: &mut [u8]) -> io::Result<()> {
    if mark != 1 {
        return Ok(());
    }
    world::read(own, p, world);
    report::entry(rt, p, place::of(own, world))
}
