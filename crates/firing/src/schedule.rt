// A firing (document 02, d): its segments in order, from a kiln at 20 °C, with its total time and its peak.
ghost use Rattle.std.specs.Prelude.{◌≡◌};
ghost use Rattle.firing.specs.Schedule.{laid_out, rules_kept, reported, unreported};

use super::{entry, segment};
use sha256::bytes;

// What is reported of an entry: the code, and where it is 0 the total of minutes and the highest target. The code is a number beside
// these, and no `Result`: C reads it.
#[repr(C)]
#[derive(Clone, Copy)]
pub struct Firing {
    pub code: u32,
    pub minutes: u32,
    pub peak: u32,
}

// What is reported where the code is not 0.
fn refused(code: u32) -> Firing
    ensures { result ≡ unreported code }
{
    Firing {
        code,
        minutes: 0,
        peak: 0,
    }
}

// Whether an entry has the first byte of a firing, 1 to 16 segments, and ends with the last of them.
fn laid_out(entry: &[u8]) -> bool
    ensures { result ≡ laid_out entry.now }
{
    let count = bytes::byte_at(entry, 1) as usize;
    (bytes::byte_at(entry, 0) == 3) & (1 <= count) & (count <= 16) & (entry.len() == 2 + 6 * count)
}

// The total time and the peak of a firing; 19 for an entry that has none of the shapes, 26 for one that is no firing or breaks the rules.
pub fn report(entry: &[u8]) -> Firing
    ensures { result ≡ reported entry.now }
{
    if !entry::fits(entry) {
        return refused(19);
    }
    if !laid_out(entry) {
        return refused(26);
    }
    let mut before = 20;
    let mut minutes = 0;
    let mut peak = 0;
    for k in 0..bytes::byte_at(entry, 1) as usize {
        let s = segment::first(bytes::from(entry, 2 + 6 * k));
        if !segment::fits(before, s) {
            return refused(26);
        }
        minutes += segment::minutes(before, s);
        before = s.target;
        peak = peak.max(before);
    }
    Firing {
        code: 0,
        minutes,
        peak: peak as u32,
    }
}

// 26 of a Write: whether an entry is no firing, or one that keeps the rules. Such a firing has one of the shapes, so its report has code 0.
pub fn rules_kept(entry: &[u8]) -> bool
    ensures { result ≡ rules_kept entry.now }
{
    bytes::byte_at(entry, 0) != 3 || report(entry).code == 0
}
