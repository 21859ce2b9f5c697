// The board: the standing insertions of the user's view, as far as 4,096 entries.
ghost use Rattle.std.specs.Prelude.{◌≡◌, ◌≤◌, length};

use crate::links::Links;
use crate::{command, show};
use firing::entry;
use programs::{line, print};
use std::env::Env;
use std::fs::{File, Files};
use std::io;

// Reads the whole view and prints its board, or the first refusal of a read.
pub fn draw<R>(rt: &R, links: &mut Links, memory: &mut [u8]) -> io::Result<()>
where
    R: Env + Files<File = File> + Print,
{
    let v = show::version(memory);
    if 4096 < v {
        return print::text(rt, b"the board is drawn for at most 4096 entries\n");
    }
    let n = line::at_most(v, 4096);
    let mut space = [0u32; 4096];
    let targets: &mut [u32] = &mut space;
    if read_targets(rt, links, n, memory, targets)? {
        return Ok(());
    }
    let mut marks = [0u32; 4096];
    let standing: &mut [u32] = &mut marks;
    entry_board::board(targets, standing);
    print::filled(rt, b"of # entries these insertions stand:\n", &[v])?;
    print_standing(rt, links, n, memory, standing)
}

// What stands for a target where a Read was refused.
const REFUSED: u32 = 4294967295;

// Reads an entry and answers its target, 0 for an insertion. A read that is refused is printed.
fn read_target<R>(rt: &R, links: &mut Links, position: u32, memory: &mut [u8]) -> io::Result<u32>
where
    R: Env + Files<File = File> + Print,
{
    let asked = command::read(rt, links, position, memory);
    if asked.code != 0 {
        show::outcome(rt, asked, memory)?;
        return Ok(REFUSED);
    }
    Ok(entry::target(command::entry_of(asked, memory)))
}

// Reads the first n entries and lays their targets into a list, 0 for an insertion. A read that is refused is printed, and ends it.
fn read_targets<R>(
    rt: &R,
    links: &mut Links,
    n: usize,
    memory: &mut [u8],
    targets: &mut [u32],
) -> io::Result<bool>
where
    R: Env + Files<File = File> + Print,
    requires { (n ≤ 4096) × (length targets.old ≡ 4096) }
{
    for k in 0..n {
        let p = (k % 4096) as u32 + 1;
        let target = read_target(rt, links, p, memory)?;
        if target == REFUSED {
            return Ok(true);
        }
        targets[k] = target;
    }
    Ok(false)
}

// Reads and prints the entry of a position, where its mark is 1. Whether the read was refused.
fn print_marked<R>(
    rt: &R,
    links: &mut Links,
    mark: u32,
    position: u32,
    memory: &mut [u8],
) -> io::Result<bool>
where
    R: Env + Files<File = File> + Print,
{
    if mark != 1 {
        return Ok(false);
    }
    command::read_and_show(rt, links, position, memory)
}

// Prints the entries among the first n that are marked.
fn print_standing<R>(
    rt: &R,
    links: &mut Links,
    n: usize,
    memory: &mut [u8],
    standing: &[u32],
) -> io::Result<()>
where
    R: Env + Files<File = File> + Print,
    requires { (n ≤ 4096) × (length standing.now ≡ 4096) }
{
    for k in 0..n {
        let p = (k % 4096) as u32 + 1;
        if print_marked(rt, links, standing[k], p, memory)? {
            return Ok(());
        }
    }
    Ok(())
}
