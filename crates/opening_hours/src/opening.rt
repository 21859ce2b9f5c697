// The earliest start (document 02, j): from a minute of the week on, that of a firing all of whose minutes lie in windows.
ghost use Rattle.std.specs.Prelude.{◌≡◌, true, ◌-◌, ◌<◌};
ghost use Rattle.opening_hours.specs.Opening.{windows_fit, earliest, no_start, opening, schedule_opening};
ghost use Rattle.opening_hours.specs.Inner.{first_closed};

use super::windows::{self, WEEK};
use firing::schedule;

// What is answered: the code, and where it is 0 the start, in minutes from Monday 0:00 of the week in which the asked minute lies.
// The code is a number beside a start, and no `Result`: C reads it.
#[repr(C)]
#[derive(Clone, Copy)]
pub struct Start {
    pub code: u32,
    pub start: u32,
}

// What is answered where the code is not 0.
fn refused(code: u32) -> Start
    ensures { result ≡ no_start code }
{
    Start { code, start: 0 }
}

// Of windows that fit, the first minute of the week that lies in none; 10,080 where they cover the week, and no Option: so the definition says.
fn first_closed(hours: &[u32]) -> u32
    ensures { result ≡ first_closed 0 hours.now }
{
    let mut closed = 0;
    let mut rest = hours;
    while let &[first, end, ref later @ ..] = rest {
        if first != closed {
            return closed;
        }
        closed = end;
        rest = later;
    }
    closed
}

// The earliest start from a minute to the week's last whose every minute lies in windows; 10,080 where there is none, a number and no
// `None`, as the definition `earliest` has it. `closed` is the week's first minute in no window.
//
// One pass over the windows: no start before `start` is left to try, and all minutes from there to `reach` are open. A window that begins
// after `reach` leaves a closed minute there, so that the next start to try is its first minute. A run that comes to the week's end
// goes on to the next week's first closed minute.
fn earliest_from(hours: &[u32], closed: u32, minute: u32, length: u32) -> u32
    requires { (windows_fit hours.now ≡ true) × ((closed ≡ first_closed 0 hours.now) × ((closed < 10080) × (minute < 10080))) }
    ensures { result ≡ earliest hours.now length minute (10080 - minute) }
{
    let mut start = minute;
    let mut reach = minute;
    let mut rest = hours;
    while let &[first, end, ref later @ ..] = rest {
        if length <= reach - start {
            return start;
        }
        if reach < first {
            start = first;
        }
        reach = reach.max(end);
        rest = later;
    }
    if reach == WEEK {
        reach += closed;
    }
    if length <= reach - start {
        return start;
    }
    WEEK
}

// The earliest start from a minute of the week on, within a week, whose every minute, counted round the week, lies in windows; 33 for a
// minute or windows that do not fit, 34 where there is no such start. Starts up to the week's end are tried first, then those of the next
// week before the same minute.
pub fn earliest(hours: &[u32], minute: u32, length: u32) -> Start
    ensures { result ≡ opening hours.now minute length }
{
    if WEEK <= minute || !windows::fit(hours) {
        return refused(33);
    }
    let closed = first_closed(hours);
    if closed == WEEK {
        return Start {
            code: 0,
            start: minute,
        };
    }
    let here = earliest_from(hours, closed, minute, length);
    if here < WEEK {
        return Start {
            code: 0,
            start: here,
        };
    }
    let next = earliest_from(hours, closed, 0, length);
    if next < minute {
        return Start {
            code: 0,
            start: WEEK + next,
        };
    }
    refused(34)
}

// The earliest start of a schedule's firing, whose length is its total time from a kiln at 20 °C; 19 and 26 as in its report, then 33 and
// 34.
pub fn schedule_start(entry: &[u8], hours: &[u32], minute: u32) -> Start
    ensures { result ≡ schedule_opening entry.now hours.now minute }
{
    let firing = schedule::report(entry);
    if firing.code != 0 {
        return refused(firing.code);
    }
    earliest(hours, minute, firing.minutes)
}
