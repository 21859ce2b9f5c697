// What is printed.
use c_layout::user_start::SettledAnswer;
use exchange::user_place;
use firing::entry;
use firing_text::{kiln, week};
use programs::{print, sentence};
use script::{Command, Fault, Word};
use sha256::bytes;
use std::io;
use tree::label;

// A script that is not run, since it has more bytes than a script may have.
pub fn too_long(rt: &impl Print) -> io::Result<()> {
    print::number(rt, b"the script is longer than ", script::MOST)?;
    print::text(rt, b" bytes, and no line of it is run\n")
}

// A line of the script, before what it does.
pub fn echo(rt: &impl Print, line: &[u8]) -> io::Result<()> {
    print::text(rt, b"> ")?;
    print::text(rt, line)?;
    print::text(rt, b"\n")
}

// Says what is wrong with a line, and whether anything is.
pub fn fault(rt: &impl Print, at: usize, c: Command) -> io::Result<bool> {
    let what = c.fault;
    match what {
        Fault::Nothing => {
            return Ok(false);
        }
        Fault::Number(which, least, most) => range(rt, at, which, least, most)?,
        Fault::UnknownWord => said(rt, at, 1)?,
        Fault::TextLength => said(rt, at, 2)?,
        Fault::Rate => said(rt, at, 3)?,
        Fault::Target => said(rt, at, 4)?,
        Fault::Hold => said(rt, at, 5)?,
        Fault::Minute => said(rt, at, 6)?,
        Fault::TooMuch => said(rt, at, 7)?,
    }
    Ok(true)
}

// What is wrong with a line where it is no number of its own.
fn said(rt: &impl Print, at: usize, what: u32) -> io::Result<()> {
    print::number(rt, b"  line ", at)?;
    print::text(rt, b": ")?;
    print::said_of(
        rt,
        what,
        b"1 no such command\n\
        2 the text is missing or longer than 1023 bytes\n\
        3 a rate is missing or not in -32768 .. 32767\n\
        4 a target is missing or not in 0 .. 65535\n\
        5 a hold is missing or not in 0 .. 65535\n\
        6 a window's minute is no number or not in 0 .. 65535\n\
        7 the line has more than the command takes",
    )?;
    print::text(rt, b"\n")
}

// That a number of a line is missing or out of its range.
fn range(rt: &impl Print, at: usize, which: u8, least: u32, most: u32) -> io::Result<()> {
    print::number(rt, b"  line ", at)?;
    print::text(rt, b": the ")?;
    print::said_of(rt, which as u32, b"1 first\n2 second\n3 third\n4 fourth")?;
    print::filled(rt, b" number is missing or not in # .. #\n", &[least, most])
}

// A new log.
pub fn begun(rt: &impl Print, servers: u32) -> io::Result<()> {
    print::filled(
        rt,
        b"  a new log on # servers; users 1, 2 and 3 have version 0\n",
        &[servers],
    )
}

// A user's call: its code and the server's, how many answers it took in, and what is kept.
pub fn call(rt: &impl Print, place: &[u8], answers: u32) -> io::Result<()> {
    let code = bytes::byte_at(place, user_place::CODE);
    let refusal = bytes::byte_at(place, user_place::REFUSAL);
    print::number(rt, b"  code ", code as usize)?;
    if code == 11 {
        print::number(rt, b", server's code ", refusal as usize)?;
    }
    let version = bytes::u32_at(place, 0);
    let number = bytes::u32_at(place, user_place::NUMBER);
    print::filled(
        rt,
        b", answers #, version #, next signature #\n",
        &[answers, version, number],
    )?;
    sentence::refusal(rt, code, refusal)
}

// A Write that waits for an answer that does not come.
pub fn cut(rt: &impl Print, place: &[u8]) -> io::Result<()> {
    if user_place::ended(place) {
        return Ok(());
    }
    let server = bytes::byte_at(place, user_place::SERVER);
    print::number(rt, b"  the request to server ", server as usize)?;
    if bytes::byte_at(place, user_place::OPENED) == 0 {
        return print::text(
            rt,
            b" is lost; the write was not open yet, and nothing of it is kept\n",
        );
    }
    let position = next(bytes::u32_at(place, 0));
    print::filled(
        rt,
        b" is lost; the write is open at position #\n",
        &[position],
    )
}

// How far a give-up has come that was not refused: it waits for an answer that does not come, or the write is closed.
pub fn given_up(rt: &impl Print, place: &[u8]) -> io::Result<()> {
    if bytes::byte_at(place, user_place::CODE) != 0 {
        return Ok(());
    }
    if user_place::ended(place) {
        return print::text(rt, b"  the write is closed\n");
    }
    let server = bytes::byte_at(place, user_place::SERVER);
    let done = bytes::byte_at(place, user_place::DONE);
    print::filled(
        rt,
        b"  the request to server # is lost; the give-up has begun, and the last server that is done has number #\n",
        &[server as u32, done as u32],
    )
}

// The position after v.
pub fn next(v: u32) -> u32 {
    if v < 1048576 {
        return v + 1;
    }
    v
}

// Says that a Read was refused, and whether it was.
pub fn refused_read(rt: &impl Print, position: u32, place: &[u8]) -> io::Result<bool> {
    let code = bytes::byte_at(place, user_place::CODE);
    if code == 0 {
        return Ok(false);
    }
    print::filled(
        rt,
        b"  reading position #: code #\n",
        &[position, code as u32],
    )?;
    sentence::refusal(rt, code, bytes::byte_at(place, user_place::REFUSAL))?;
    Ok(true)
}

// What a Read found, where it did not end with a refusal.
pub fn entry(rt: &impl Print, position: u32, place: &[u8]) -> io::Result<()> {
    if bytes::byte_at(place, user_place::CODE) != 0 {
        return Ok(());
    }
    found(rt, position, place)?;
    contents(rt, user_place::entry_of(place))?;
    print::text(rt, b"\n")
}

// Where a Read found an entry, and whose it is.
pub fn found(rt: &impl Print, position: u32, place: &[u8]) -> io::Result<()> {
    let author = bytes::u16_at(place, user_place::AUTHOR);
    print::filled(rt, b"  position # by user #: ", &[position, author as u32])
}

// What an entry holds: a schedule in a few words, what it strikes, or its text.
fn contents(rt: &impl Print, entry: &[u8]) -> io::Result<()> {
    if bytes::byte_at(entry, 0) == 3 {
        return kiln::summary(rt, entry);
    }
    let target = entry::target(entry);
    if target == 0 {
        print::text(rt, bytes::from(entry, 1))
    } else {
        print::number(rt, b"strike ", target as usize)
    }
}

// What a command asks of the entry that a Read found, where it did not end with a refusal: the report from 20, or from a warm kiln, or when
// the firing may begin within the windows that a text lists.
pub fn firing(rt: &impl Print, c: Command, text: &[u8], place: &[u8]) -> io::Result<()> {
    if bytes::byte_at(place, user_place::CODE) != 0 {
        return Ok(());
    }
    found(rt, c.second, place)?;
    let entry = user_place::entry_of(place);
    let word = c.word;
    match word {
        Word::Warm => kiln::print_totals(rt, entry, c.third, c.fourth),
        Word::Begin => week::print_start(rt, entry, c.third, text),
        _ => kiln::print_firing(rt, entry),
    }
}

// Above a board.
pub fn board(rt: &impl Print, own: u8, entries: u32) -> io::Result<()> {
    print::filled(
        rt,
        b"  the board of user # after # entries\n",
        &[own as u32, entries],
    )
}

// Whether the operation is settled that a user has read.
pub fn settled(
    rt: &impl Print,
    servers: u8,
    own: u8,
    position: u32,
    s: SettledAnswer,
    place: &[u8],
) -> io::Result<()> {
    let version = bytes::u32_at(place, 0);
    let author = bytes::u16_at(place, user_place::AUTHOR);
    print::filled(
        rt,
        b"  code #, version #, Q(#, #) = #\n",
        &[
            s.code,
            version,
            position,
            servers as u32,
            wait(servers, position),
        ],
    )?;
    if s.code != 0 {
        return sentence::refusal(rt, (s.code % 256) as u8, 0);
    }
    print::filled(
        rt,
        b"  operation # by user # is ",
        &[position, author as u32],
    )?;
    standing(rt, author == own as u16, s.settled == 1)
}

// Whether an operation that was read is settled. Only an own one is.
fn standing(rt: &impl Print, is_own: bool, is_settled: bool) -> io::Result<()> {
    if !is_own {
        print::text(rt, b"not this user's own\n")
    } else if is_settled {
        print::text(rt, b"settled\n")
    } else {
        print::text(rt, b"not settled yet\n")
    }
}

// Q of a position.
fn wait(servers: u8, position: u32) -> u32 {
    label::wait(position, servers) as u32
}

// A fork that begins, where the longest view has so many operations.
pub fn forked(rt: &impl Print, servers: u8, honest: u8, common: u32) -> io::Result<()> {
    let first = next(common);
    print::filled(
        rt,
        b"  every server but # keeps two copies from now on: one for users 1 and 3, one for user 2\n  \
        positions up to # are in both; the first that can differ is #, and Q(#, #) = #\n",
        &[
            honest as u32,
            common,
            first,
            first,
            servers as u32,
            wait(servers, first),
        ],
    )
}

// A user that a refusal shows the fork, where the longest view had so many operations when it began.
pub fn noticed(
    rt: &impl Print,
    servers: u8,
    common: u32,
    own: u8,
    operation: u32,
) -> io::Result<()> {
    let first = next(common);
    print::filled(
        rt,
        b"  fork at position #: user # notices it at operation #; Q(#, #) = #\n",
        &[
            first,
            own as u32,
            operation,
            first,
            servers as u32,
            wait(servers, first),
        ],
    )
}

// Views that differ from position d on, with so many operations from there to the end of the shorter one.
pub fn difference(
    rt: &impl Print,
    servers: u8,
    a: u8,
    b: u8,
    d: u32,
    operations: u32,
) -> io::Result<()> {
    print::filled(
        rt,
        b"  users # and # read position # differently; operations from there to the end of the shorter view: #, at most Q(#, #) = #\n",
        &[
            a as u32,
            b as u32,
            d,
            operations,
            d,
            servers as u32,
            wait(servers, d),
        ],
    )
}
