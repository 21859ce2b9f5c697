// The curve of a firing as text: temperature over time in 10 rows, from 20 at the bottom, where the kiln starts, to the peak at the top,
// and 60 columns, which share the firing's time.
ghost use Rattle.std.specs.Prelude.{◌≤◌, ◌<◌};

use crate::kiln;
use firing::schedule::Firing;
use firing::segment;
use firing::segment::Segment;
use programs::print;
use sha256::bytes;
use std::io;

// Draws the curve of a schedule that keeps the rules, with what was reported of it. A firing that never leaves 20 has none, and takes no
// time where it does not hold either.
pub(crate) fn draw(rt: &impl Print, entry: &[u8], f: Firing) -> io::Result<()> {
    if f.minutes == 0 {
        return print::text(rt, b"  the kiln stays at 20 C\n");
    }
    if f.peak <= 20 {
        return print::text(rt, b"  the kiln stays at 20 C\n");
    }
    let mut space = [b' '; 600];
    let marks: &mut [u8] = &mut space;
    mark_segments(entry, f, marks);
    print_rows(rt, f.peak, marks)?;
    print_time(rt, f.minutes)
}

// Marks the minutes of all segments with stars. The marks have the rows one after the other, the bottom row first.
fn mark_segments(entry: &[u8], f: Firing, marks: &mut [u8])
    requires { 0 < f.minutes }
{
    let count = bytes::byte_at(entry, 1);
    let mut before = 20;
    let mut start: usize = 0;
    let mut k: u8 = 0;
    while k < count {
        let s = kiln::segment_at(entry, k);
        let minutes = segment::minutes(before, s);
        mark_segment(before, s, minutes, start, f, marks);
        start += minutes as usize;
        before = s.target;
        k += 1;
    }
}

// Marks each minute of a segment that begins `start` minutes into the firing: in the minute's column, the row of the temperature at its
// end. So each target has a mark, however short its hold is.
fn mark_segment(before: u16, s: Segment, minutes: u32, start: usize, f: Firing, marks: &mut [u8])
    requires { (0 < f.minutes) × (start ≤ 1099511627776) }
{
    let mut m: u32 = 0;
    while m < minutes {
        let column = (start + m as usize) * 60 / f.minutes as usize;
        m += 1;
        let row = row_of(temperature(before, s, minutes, m), f.peak as usize);
        mark(row, column, marks);
    }
}

// Marks a column of a row, where the picture has them.
fn mark(row: usize, column: usize, marks: &mut [u8]) {
    if row < 10 {
        if column < 60 {
            bytes::put(marks, 60 * row + column, b"*");
        }
    }
}

// The temperature m minutes after a segment began that lasts `minutes`: on a straight line to the target, then the target while it holds.
fn temperature(before: u16, s: Segment, minutes: u32, m: u32) -> usize {
    if minutes as usize <= m as usize + s.hold as usize {
        return s.target as usize;
    }
    let moving = minutes - s.hold as u32;
    (product(before, moving - m) + product(s.target, m)) / moving as usize
}

// The product of two bytes' and four bytes' numbers, below 2^48, so that sums of products fit.
fn product(a: u16, b: u32) -> usize
    ensures { result < 281474976710656 }
{
    a as usize * b as usize
}

// The row whose temperature is nearest to t: 0 for 20, 9 for the peak.
fn row_of(t: usize, peak: usize) -> usize
    requires { peak ≤ 4294967295 }
{
    if t <= 20 {
        return 0;
    }
    if peak <= t {
        return 9;
    }
    (18 * (t - 20) + (peak - 20)) / (2 * (peak - 20))
}

// The temperature of a row.
fn row_temperature(row: u16, peak: u32) -> usize
    requires { row ≤ 9 }
{
    (20 * (9 - row) as usize + product(row, peak)) / 9
}

// The rows from the top, each with its temperature.
fn print_rows(rt: &impl Print, peak: u32, marks: &[u8]) -> io::Result<()> {
    let mut row: u16 = 10;
    while 0 < row {
        row -= 1;
        print_right(rt, row_temperature(row, peak), 6)?;
        print::text(rt, b" C |")?;
        print::text(rt, bytes::front(bytes::from(marks, 60 * row as usize), 60))?;
        print::text(rt, b"|\n")?;
    }
    Ok(())
}

// Below the rows: where the firing begins, and its minutes where it ends.
fn print_time(rt: &impl Print, minutes: u32) -> io::Result<()> {
    print::text(rt, b"         +")?;
    print::text(rt, &[b'-'; 60])?;
    print::text(rt, b"+\n          0")?;
    print_right(rt, minutes as usize, 59)?;
    print::text(rt, b" minutes\n")
}

// A number with blanks before it, `width` characters where it has no more digits.
fn print_right(rt: &impl Print, n: usize, width: usize) -> io::Result<()> {
    print!(rt; "{n:>width$}")
}
