// Runs NIST's vectors and prints a line for each: its name and the digest computed here. The file `stdout` has NIST's own digests.
#![tactic(auto)]

mod file;
mod fill;
mod monte;
mod parts;
mod report;

use std::io;

fn main(rt: HostRuntime) -> io::Result<()> {
    file::run(&rt, "fips180.txt")?;
    fill::million(&rt, b"million_a", 0x61)?;
    fill::few(&rt, b"one_byte_bd", 0xbd, 1)?;
    fill::few(&rt, b"zero_55", 0, 55)?;
    fill::few(&rt, b"zero_56", 0, 56)?;
    fill::few(&rt, b"zero_57", 0, 57)?;
    fill::few(&rt, b"zero_64", 0, 64)?;
    fill::few(&rt, b"zero_1000", 0, 1000)?;
    fill::few(&rt, b"fill_41_1000", 0x41, 1000)?;
    fill::few(&rt, b"fill_55_1005", 0x55, 1005)?;
    fill::million(&rt, b"zero_1000000", 0)?;
    file::run(&rt, "short.txt")?;
    file::run(&rt, "long.txt")?;
    monte::run(&rt)
}
