// What `paths` answers to inputs beside document 01's own: the ends of each range, what lies past them, what is no input, and long tables,
// of which the hash and the last row are printed.
#![tactic(auto)]

ghost use Rattle.std.specs.Prelude.{◌<◌};

use owner_map::rows;
use sha256::bytes;
use std::io;

fn main(rt: HostRuntime) -> io::Result<()> {
    tables(&rt)?;
    refused(&rt)?;
    long_inputs(&rt)?;
    long_tables(&rt)?;
    rooms(&rt)
}

fn tables(rt: &impl Print) -> io::Result<()> {
    plain(rt, b"2 3")?;
    show(rt, b"16 6 and a line end", b"16 6\n")?;
    show(rt, b"8 4 with blanks around", b" 8\t4 \r\n")?;
    plain(rt, b"4 1")
}

fn refused(rt: &impl Print) -> io::Result<()> {
    plain(rt, b"1 5")?;
    plain(rt, b"17 5")?;
    plain(rt, b"4 0")?;
    plain(rt, b"4 1048577")?;
    plain(rt, b"4 99999999999999999999")?;
    plain(rt, b"4")?;
    plain(rt, b"45")?;
    plain(rt, b"4 5 6")?;
    plain(rt, b"4,5")?;
    plain(rt, b"four five")?;
    plain(rt, b"-4 5")?;
    show(rt, b"no bytes", b"")
}

// Inputs of more than 64 bytes, and of 4,096 and 4,097 bytes.
fn long_inputs(rt: &impl Print) -> io::Result<()> {
    show(
        rt,
        b"4, 60 zeros and 5",
        b"4 0000000000000000000000000000000000000000000000000000000000005",
    )?;
    show(
        rt,
        b"4, 60 zeros and 1048577",
        b"4 0000000000000000000000000000000000000000000000000000000000001048577",
    )?;
    show(
        rt,
        b"4 5, 61 blanks and garbage",
        b"4 5                                                             garbage",
    )?;
    let mut text = [b' '; 4097];
    bytes::put(&mut text, 0, b"4 1");
    show(rt, b"4 1 and 4093 blanks", bytes::front(&text, 4096))?;
    show(rt, b"4 1 and 4094 blanks", &text)
}

// Prints an input and the answer to it.
fn plain(rt: &impl Print, input: &[u8]) -> io::Result<()> {
    show(rt, input, input)
}

// Prints the name of an input and the answer to it.
fn show(rt: &impl Print, name: &[u8], input: &[u8]) -> io::Result<()> {
    say(rt, name, b":\n")?;
    owner_map::send_answer(rt, input, true)?;
    Ok(())
}

fn long_tables(rt: &impl Print) -> io::Result<()> {
    hashed(rt, b"4 5000", 4, 5000)?;
    hashed(rt, b"2 1048576", 2, 1048576)?;
    hashed(rt, b"16 1048576", 16, 1048576)
}

// Prints the hash of a table, up to which position its first piece goes, and its last row.
fn hashed(rt: &impl Print, input: &[u8], n: u8, last: u32) -> io::Result<()>
    requires { 0 < last }
{
    say(rt, input, b", SHA-256 of the answer: ")?;
    print_hash(rt, &owner_map::send_answer(rt, input, false)?)?;
    let mut space = [0u8; 65536];
    say(rt, input, b", last position of the first piece: ")?;
    print_number(rt, rows::fill(&mut space, n, 0, last).done)?;
    say(rt, input, b", last row: ")?;
    let row = rows::fill(&mut space, n, last - 1, last);
    print(rt, bytes::front(&space, row.length))
}

// Prints how many rows of the table for 4 5 go into a buffer that is just too short for one, and into one that is just long enough.
fn rooms(rt: &impl Print) -> io::Result<()> {
    let mut short = [0u8; 104];
    say(rt, b"4 5", b", rows in a buffer of 104 bytes: ")?;
    print_number(rt, rows::fill(&mut short, 4, 0, 5).done)?;
    let mut long = [0u8; 105];
    say(rt, b"4 5", b", rows in a buffer of 105 bytes: ")?;
    print_number(rt, rows::fill(&mut long, 4, 0, 5).done)
}

fn print_number(rt: &impl Print, n: u32) -> io::Result<()> {
    println!(rt; "{n}")
}

fn print_hash(rt: &impl Print, hash: &[u8]) -> io::Result<()> {
    print_word(rt, hash, 0)?;
    print_word(rt, hash, 4)?;
    print_word(rt, hash, 8)?;
    print_word(rt, hash, 12)?;
    print_word(rt, hash, 16)?;
    print_word(rt, hash, 20)?;
    print_word(rt, hash, 24)?;
    print_word(rt, hash, 28)?;
    print(rt, b"\n")
}

fn print_word(rt: &impl Print, hash: &[u8], at: usize) -> io::Result<()> {
    let word = bytes::u32_at(hash, at);
    print!(rt; "{word:08x}")
}

// Prints for which input a line is, and what it says.
fn say(rt: &impl Print, input: &[u8], what: &[u8]) -> io::Result<()> {
    print(rt, b"for ")?;
    print(rt, input)?;
    print(rt, what)
}

fn print(rt: &impl Print, text: &[u8]) -> io::Result<()> {
    rt.write_all(text)
}
