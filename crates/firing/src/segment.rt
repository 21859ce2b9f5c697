// One segment of a firing (document 02, d): its six bytes, the rules that it keeps, and how long it lasts.
ghost use Rattle.std.specs.Prelude.{◌≡◌};
ghost use Rattle.firing.specs.Schedule.{segment_of, change, same_sign, sign_fits, segment_fits, segment_minutes};

use sha256::bytes;

// A segment: the rate in °C per hour, below 0 when cooling, the target in °C, and the hold in minutes.
#[derive(Clone, Copy)]
pub struct Segment {
    pub rate: i16,
    pub target: u16,
    pub hold: u16,
}

// The segment in the first six bytes.
pub fn first(s: &[u8]) -> Segment
    ensures { result ≡ segment_of s.now }
{
    Segment {
        rate: bytes::u16_at(s, 0).cast_signed(),
        target: bytes::u16_at(s, 2),
        hold: bytes::u16_at(s, 4),
    }
}

// Whether two numbers are both below 0, both above it, or both 0.
fn same_sign(a: i32, b: i32) -> bool
    ensures { result ≡ same_sign a b }
{
    a.signum() == b.signum()
}

// The target minus the temperature before.
fn change_from(before: u16, s: Segment) -> i32
    ensures { result ≡ change before s }
{
    s.target as i32 - before as i32
}

// Whether the rate has the sign of the change from a temperature on, and is 0 exactly if there is none.
pub fn sign_fits(before: u16, s: Segment) -> bool
    ensures { result ≡ sign_fits before s }
{
    same_sign(s.rate as i32, change_from(before, s))
}

// Whether rate, target and hold are in range and the rate has the sign of the change.
pub fn fits(before: u16, s: Segment) -> bool
    ensures { result ≡ segment_fits before s }
{
    (s.rate.unsigned_abs() <= 600)
        & (20 <= s.target)
        & (s.target <= 1350)
        & (s.hold <= 5999)
        & sign_fits(before, s)
}

// How long the segment lasts from a temperature on: the change at the rate's size, rounded up to whole minutes, and the hold.
pub fn minutes(before: u16, s: Segment) -> u32
    ensures { result ≡ segment_minutes before s }
{
    let hold = s.hold as u32;
    let rate = s.rate.unsigned_abs() as u32;
    if rate == 0 {
        return hold;
    }
    let difference = s.target.abs_diff(before) as u32;
    (60 * difference).div_ceil(rate) + hold
}
