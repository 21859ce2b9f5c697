// Document 02's cases of firings. Of schedules: each range's ends and what lies past them, each way in which a rate has the wrong sign,
// totals, peaks and lengths. Of a kiln still warm: its range of starts. Of opening hours: the earliest start of a firing of some length, or
// of a schedule's, round the week, and windows that break the rules. Each line of data/cases.txt is one case, and data/README.md says what
// its numbers mean. Its name is printed, and the code and the numbers that are reported.
#![tactic(auto)]

mod entry;

use firing::{schedule, warm};
use opening_hours::opening;
use opening_hours::opening::Start;
use programs::{file, numbers, print};
use sha256::bytes;
use std::io;

fn main(rt: HostRuntime) -> io::Result<()> {
    let mut text = [0u8; 65536];
    let n = file::read(&rt, &mut text)?;
    rows(&rt, bytes::front(&text, n))
}

// All lines, one after the other.
fn rows(rt: &impl Print, text: &[u8]) -> io::Result<()> {
    let mut at: usize = 0;
    while at < text.len() {
        let rest = bytes::from(text, at);
        let n = lines::find(rest, b'\n');
        row(rt, bytes::front(rest, n))?;
        at += n + 1;
    }
    Ok(())
}

// Prints a line's name and, where a case follows it, what is reported.
fn row(rt: &impl Print, text: &[u8]) -> io::Result<()> {
    let n = lines::find(text, b':');
    print::text(rt, bytes::front(text, n))?;
    if n < text.len() {
        print::text(rt, b": ")?;
        report(rt, bytes::from(bytes::from(text, n), 2))?;
    }
    print::text(rt, b"\n")
}

// What is reported of a case. The word before its numbers says what is asked; without one it is the report from 20.
fn report(rt: &impl Print, case: &[u8]) -> io::Result<()> {
    let word = bytes::front(case, lines::find(case, b' '));
    if bytes::same(word, b"warm") {
        warm_totals(rt, numbers::after(case))
    } else if bytes::same(word, b"begin") {
        start_of_length(rt, numbers::after(case))
    } else if bytes::same(word, b"schedule") {
        start_of_schedule(rt, numbers::after(case))
    } else {
        firing_from_20(rt, case)
    }
}

// The minutes and the peak of the entry that numbers make.
fn firing_from_20(rt: &impl Print, text: &[u8]) -> io::Result<()> {
    let mut space = [0u8; 1025];
    let n = entry::make(text, &mut space);
    let f = schedule::report(bytes::front(&space, n));
    print::filled(
        rt,
        b"code #, minutes #, peak #",
        &[f.code, f.minutes, f.peak],
    )
}

// The least and the greatest minutes from a range of starts, whose ends are the first two numbers; the others make an entry.
fn warm_totals(rt: &impl Print, text: &[u8]) -> io::Result<()> {
    let mut space = [0u8; 1025];
    let to = numbers::after(text);
    let n = entry::make(numbers::after(to), &mut space);
    let t = warm::report(
        bytes::front(&space, n),
        numbers::number(text),
        numbers::number(to),
    );
    print::filled(
        rt,
        b"code #, least #, greatest #",
        &[t.code, t.least, t.greatest],
    )
}

// The earliest start for a minute, a length and windows, which are numbers in this order.
fn start_of_length(rt: &impl Print, text: &[u8]) -> io::Result<()> {
    let mut windows = [0u32; 130];
    let length = numbers::after(text);
    let n = numbers::lay(numbers::after(length), &mut windows);
    let s = opening::earliest(
        &windows[..n],
        numbers::number(text),
        numbers::number(length),
    );
    print_start(rt, s)
}

// The earliest start for a minute, windows and, after a bar, an entry.
fn start_of_schedule(rt: &impl Print, text: &[u8]) -> io::Result<()> {
    let mut space = [0u8; 1025];
    let mut windows = [0u32; 130];
    let bar = lines::find(text, b'|');
    let n = entry::make(bytes::from(bytes::from(text, bar), 2), &mut space);
    let count = numbers::lay(numbers::after(bytes::front(text, bar)), &mut windows);
    let s = opening::schedule_start(
        bytes::front(&space, n),
        &windows[..count],
        numbers::number(text),
    );
    print_start(rt, s)
}

fn print_start(rt: &impl Print, s: Start) -> io::Result<()> {
    print::filled(rt, b"code #, start #", &[s.code, s.start])
}
