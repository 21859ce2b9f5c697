// The segments of a schedule on a line: a rate, which may be below 0, a target and a hold for each, with blanks between them.
ghost use Rattle.std.specs.Prelude.{cond, ◌≡◌};
ghost use Rattle.script.specs.Segment.{from_zero, below_zero, rate_at, segment_fault, segment_at};

use crate::number::Range;
use crate::{Fault, number};
use lines::Digits;
use sha256::bytes;

// A segment that a line lists: its numbers as two bytes hold them, the rate in two's complement; what is wrong with it; and what is left
// of the line is at `next`.
#[derive(Clone, Copy)]
pub struct Listed {
    pub rate: u16,
    pub target: u16,
    pub hold: u16,
    pub fault: Fault,
    pub next: usize,
}

// A rate that a line lists: its two bytes, whether the number that is there fits into them, and what is left of the line is at `next`.
#[derive(Clone, Copy)]
struct Rate {
    bits: u16,
    fits: bool,
    next: usize,
}

// The segment after the blanks at a place.
pub fn segment(text: &[u8], at: usize) -> Listed
    ensures { result ≡ segment_at text.now at }
{
    let rate = rate_at(text, lines::skip_blanks(text, at));
    let target = number::next(text, rate.next);
    let hold = number::next(text, target.next);
    let fault = fault_of(rate, target, hold);
    Listed {
        rate: rate.bits,
        target: (target.value % 65536) as u16,
        hold: (hold.value % 65536) as u16,
        fault,
        next: lines::skip_blanks(text, hold.next),
    }
}

// The rate at a place.
fn rate_at(text: &[u8], at: usize) -> Rate
    ensures { result ≡ rate_at text.now at }
{
    if bytes::byte_at(text, at) != b'-' {
        return from_0(number::at_place(text, at));
    }
    below_0(number::at_place(text, at + 1))
}

// The rate with these digits and no sign.
fn from_0(d: Digits) -> Rate
    ensures { result ≡ from_zero d }
{
    let range = Range {
        least: 0,
        most: 32767,
    };
    Rate {
        bits: (d.value % 65536) as u16,
        fits: number::is_within(d, range),
        next: d.next,
    }
}

// The rate with these digits after a minus sign.
fn below_0(d: Digits) -> Rate
    ensures { result ≡ below_zero d }
{
    let range = Range {
        least: 0,
        most: 32768,
    };
    Rate {
        bits: ((65536 - d.value % 65536) % 65536) as u16,
        fits: number::is_within(d, range),
        next: d.next,
    }
}

fn fault_of(rate: Rate, target: Digits, hold: Digits) -> Fault
    ensures { result ≡ segment_fault rate target hold }
{
    let range = number::two_bytes();
    let of_hold = unless(number::is_within(hold, range), Fault::Hold, Fault::Nothing);
    let of_target = unless(number::is_within(target, range), Fault::Target, of_hold);
    unless(rate.fits, Fault::Rate, of_target)
}

// This fault where a number does not fit, and else what follows.
fn unless(fits: bool, fault: Fault, rest: Fault) -> Fault
    ensures { result ≡ cond fits rest fault }
{
    if fits {
        return rest;
    }
    fault
}
