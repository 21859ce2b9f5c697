// What is reported of a firing schedule, and when its firing may begin.
ghost use Rattle.std.specs.Prelude.{◌≡◌};
ghost use Rattle.firing.specs.Schedule.{reported};
ghost use Rattle.firing.specs.Warm.{warm_reported};
ghost use Rattle.opening_hours.specs.Opening.{opening, schedule_opening};

use firing::schedule::Firing;
use firing::warm::Totals;
use firing::{schedule, warm};
use opening_hours::opening;
use opening_hours::opening::Start;

// The total time and the peak of a schedule, or the code that refuses the entry.
#[unsafe(no_mangle)]
pub extern "C" fn kozbrax_schedule(entry: &[u8]) -> Firing
    ensures { result ≡ reported entry.now }
{
    schedule::report(entry)
}

// The least and the greatest total time of a schedule from the whole starts in a range, or the code that refuses the entry or the range.
#[unsafe(no_mangle)]
pub extern "C" fn kozbrax_schedule_warm(entry: &[u8], from: u32, to: u32) -> Totals
    ensures { result ≡ warm_reported entry.now from to }
{
    warm::report(entry, from, to)
}

// The earliest start from a minute of the week on whose every minute of a length lies in windows, or the code that refuses it.
#[unsafe(no_mangle)]
pub extern "C" fn kozbrax_opening(windows: &[u32], minute: u32, length: u32) -> Start
    ensures { result ≡ opening windows.now minute length }
{
    opening::earliest(windows, minute, length)
}

// The earliest start of a schedule from a minute of the week on whose every minute lies in windows, or the code that refuses it.
#[unsafe(no_mangle)]
pub extern "C" fn kozbrax_schedule_opening(entry: &[u8], windows: &[u32], minute: u32) -> Start
    ensures { result ≡ schedule_opening entry.now windows.now minute }
{
    opening::schedule_start(entry, windows, minute)
}
