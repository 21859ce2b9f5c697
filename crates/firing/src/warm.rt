// A kiln that is still warm (document 02, i): the least and the greatest total time of a firing whose start lies in a range.
ghost use Rattle.std.specs.Prelude.{◌≡◌};
ghost use Rattle.firing.specs.Warm.{starts_fit, warm_unreported, warm_reported};

use super::segment::Segment;
use super::{schedule, segment};
use sha256::bytes;

// What is reported of an entry and a range of starts: the code, and where it is 0 the least and the greatest total of minutes. The code
// is a number beside these, and no `Result`: C reads it.
#[repr(C)]
#[derive(Clone, Copy)]
pub struct Totals {
    pub code: u32,
    pub least: u32,
    pub greatest: u32,
}

// What is reported where the code is not 0.
fn refused(code: u32) -> Totals
    ensures { result ≡ warm_unreported code }
{
    Totals {
        code,
        least: 0,
        greatest: 0,
    }
}

// Whether a range of starts is in order and within 0 to 1,350, and the first rate has the right sign from every start in it. It is right
// from all if it is from both ends: all starts between them are then on the same side of the target, or at it.
fn starts_fit(first: Segment, from: u32, to: u32) -> bool
    ensures { result ≡ starts_fit first from to }
{
    if to < from || 1350 < to {
        return false;
    }
    segment::sign_fits(from as u16, first) & segment::sign_fits(to as u16, first)
}

// The least and the greatest total time of a firing from the whole starts in a range; 19 and 26 as in its report, which is judged from 20,
// then 32. Only the first segment's time depends on the start. A firing that keeps the rules from 20 does not begin by cooling, so the
// upper end of the range is the nearest to the first target, and has the least total.
pub fn report(entry: &[u8], from: u32, to: u32) -> Totals
    ensures { result ≡ warm_reported entry.now from to }
{
    let firing = schedule::report(entry);
    if firing.code != 0 {
        return refused(firing.code);
    }
    let first = segment::first(bytes::from(entry, 2));
    if !starts_fit(first, from, to) {
        return refused(32);
    }
    let later = firing.minutes - segment::minutes(20, first);
    let least = segment::minutes(to as u16, first) + later;
    let greatest = segment::minutes(from as u16, first) + later;
    Totals {
        code: 0,
        least,
        greatest,
    }
}
