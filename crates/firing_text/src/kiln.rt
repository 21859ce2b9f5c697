// Firing schedules: the entry of one, and what is printed of one.
ghost use Rattle.std.specs.Prelude.{◌≡◌, ◌+◌, ◌*◌, ◌≤◌, length, drop};
ghost use Rattle.firing.specs.Schedule.{segment_of};
ghost use Rattle.firing_text.specs.Laid.{listed, with_segment, with_segments, with_schedule};

use crate::curve;
use firing::segment::Segment;
use firing::{schedule, segment, warm};
use programs::{print, sentence};
use script::segments;
use script::segments::Listed;
use sha256::bytes;
use std::io;

// Lays the entry of a schedule with the segments that a text lists: the byte 3, how many they are, and six bytes for each. Answers the
// entry's length, which counts what the memory has no room for too.
pub fn lay(text: &[u8], entry: &mut [u8]) -> usize
    ensures { (result ≡ 2 + 6 * length (listed text.now))
        × (entry.new ≡ with_schedule entry.old (listed text.now)) }
{
    let count = lay_segments(text, entry);
    bytes::put(entry, 0, &[3, count]);
    2 + 6 * count as usize
}

// Lays at most 16 segments that a text lists after the first two bytes, and answers how many they are.
fn lay_segments(text: &[u8], entry: &mut [u8]) -> u8
    ensures { (result ≡ length (listed text.now))
        × (entry.new ≡ with_segments entry.old 2 (listed text.now)) }
{
    let mut at = 0;
    let mut count: u8 = 0;
    while count < 16 {
        if text.len() <= at {
            return count;
        }
        let s = segments::segment(text, at);
        put_segment(s, 2 + 6 * count as usize, entry);
        at = s.next;
        count += 1;
    }
    count
}

// Puts a segment's six bytes at a place of an entry.
fn put_segment(s: Listed, at: usize, entry: &mut [u8])
    requires { at ≤ 98 }
    ensures { entry.new ≡ with_segment entry.old at s }
{
    bytes::put2(entry, at, &bytes::be2(s.rate), &bytes::be2(s.target));
    bytes::put(entry, at + 4, &bytes::be2(s.hold));
}

// The segment of an entry before which there are k others.
pub(crate) fn segment_at(entry: &[u8], k: u8) -> Segment
    ensures { result ≡ segment_of (drop (2 + 6 * k) entry.now) }
{
    segment::first(bytes::from(entry, 2 + 6 * k as usize))
}

// An entry with the first byte of a schedule, in a few words. A stored one need not keep the rules: servers take any bytes.
pub fn summary(rt: &impl Print, entry: &[u8]) -> io::Result<()> {
    let f = schedule::report(entry);
    if f.code != 0 {
        return print::number(
            rt,
            b"schedule that breaks the rules, code ",
            f.code as usize,
        );
    }
    let segments = bytes::byte_at(entry, 1);
    print::filled(
        rt,
        b"schedule, segments #, minutes #, peak #",
        &[segments as u32, f.minutes, f.peak],
    )
}

// The report from 20; with code 0 the segments and the curve too.
pub fn print_firing(rt: &impl Print, entry: &[u8]) -> io::Result<()> {
    let f = schedule::report(entry);
    print::filled(
        rt,
        b"code #, minutes #, peak #",
        &[f.code, f.minutes, f.peak],
    )?;
    end_report(rt, f.code)?;
    if f.code == 0 {
        print_segments(rt, entry)?;
        curve::draw(rt, entry, f)?;
    }
    Ok(())
}

// The least and the greatest minutes from the starts in a range.
pub fn print_totals(rt: &impl Print, entry: &[u8], from: u32, to: u32) -> io::Result<()> {
    let t = warm::report(entry, from, to);
    print::filled(
        rt,
        b"code #, least #, greatest #",
        &[t.code, t.least, t.greatest],
    )?;
    end_report(rt, t.code)
}

// The end of a report's line, and what a refusal says.
pub(crate) fn end_report(rt: &impl Print, code: u32) -> io::Result<()> {
    print::text(rt, b"\n")?;
    sentence::refusal(rt, (code % 256) as u8, 0)
}

// A line for each segment.
fn print_segments(rt: &impl Print, entry: &[u8]) -> io::Result<()> {
    let count = bytes::byte_at(entry, 1);
    let mut before = 20;
    let mut k: u8 = 0;
    while k < count {
        let s = segment_at(entry, k);
        k += 1;
        print::number(rt, b"  segment ", k as usize)?;
        print_segment(rt, s, segment::minutes(before, s))?;
        before = s.target;
    }
    Ok(())
}

// A segment that lasts so many minutes.
fn print_segment(rt: &impl Print, s: Segment, minutes: u32) -> io::Result<()> {
    print::text(rt, b": rate ")?;
    print_rate(rt, s)?;
    print::filled(
        rt,
        b", target #, hold #, lasts # minutes\n",
        &[s.target as u32, s.hold as u32, minutes],
    )
}

// A segment's rate, with a minus sign where it cools.
fn print_rate(rt: &impl Print, s: Segment) -> io::Result<()> {
    if s.rate < 0 {
        print::text(rt, b"-")?;
    }
    print::number(rt, b"", s.rate.unsigned_abs() as usize)
}
