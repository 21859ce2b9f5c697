// The windows of a week: first minute and end minute of each, one window behind the other, the end not belonging.
ghost use Rattle.std.specs.Prelude.{◌≡◌};
ghost use Rattle.opening_hours.specs.Opening.{windows_fit};

// How many minutes a week has.
pub const WEEK: u32 = 10080;

// Whether there are 1 to 32 windows, none of them empty or past the week's end, and each begins where the one before ends or after that.
pub fn fit(windows: &[u32]) -> bool
    ensures { result ≡ windows_fit windows.now }
{
    if 64 < windows.len() {
        return false;
    }
    let mut after = 0;
    let mut rest = windows;
    while let &[first, end, ref later @ ..] = rest {
        if first < after || end <= first || WEEK < end {
            return false;
        }
        after = end;
        rest = later;
    }
    !windows.is_empty() & rest.is_empty()
}
