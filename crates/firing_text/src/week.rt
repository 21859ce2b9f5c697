// When a firing may begin within opening hours: a minute of the week, which begins on Monday at 0:00, and what is printed of it.
use crate::kiln;
use opening_hours::opening;
use programs::{numbers, print};
use std::io;

// The earliest start of a schedule's firing from a minute of the week on, within the windows that a text lists.
pub fn print_start(rt: &impl Print, entry: &[u8], minute: u32, text: &[u8]) -> io::Result<()> {
    let mut windows = [0u32; 66];
    let n = numbers::lay(text, &mut windows);
    let s = opening::schedule_start(entry, &windows[..n], minute);
    print::number(rt, b"code ", s.code as usize)?;
    if s.code == 0 {
        print_time(rt, s.start)?;
    }
    kiln::end_report(rt, s.code)
}

// A minute of this week or the one after, as a number and in words.
fn print_time(rt: &impl Print, minute: u32) -> io::Result<()> {
    print::filled(rt, b", start #, ", &[minute])?;
    print::said_of(
        rt,
        minute / 1440 % 7,
        b"0 Monday\n1 Tuesday\n2 Wednesday\n3 Thursday\n4 Friday\n5 Saturday\n6 Sunday",
    )?;
    print::filled(
        rt,
        b" #:##",
        &[minute / 60 % 24, minute % 60 / 10, minute % 10],
    )?;
    if 10080 <= minute {
        print::text(rt, b" of the week after")?;
    }
    Ok(())
}
