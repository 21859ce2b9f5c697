// What a line lists after its numbers, with blanks between them: the 1 to 16 segments of a schedule, or the minutes of windows.
ghost use Rattle.std.specs.Prelude.{◌≡◌};
ghost use Rattle.script.specs.Listed.{most as most_of, minute_item, segment_item, item_at, is_fault, list_fault};

use crate::{Fault, number, segments};

// A segment or a minute that a line lists: what is wrong with it, and what is left of the line is at `next`.
#[derive(Clone, Copy)]
struct Item {
    fault: Fault,
    next: usize,
}

// What is wrong with what a line lists: minutes, or else segments.
pub fn fault(minutes: bool, text: &[u8]) -> Fault
    ensures { result ≡ list_fault minutes (most_of minutes) text.now 0 }
{
    let most = most(minutes);
    let mut at = 0;
    let mut count: u8 = 0;
    while count < most {
        let item = item_at(minutes, text, at);
        let wrong = item.fault;
        if is_fault(wrong) {
            return wrong;
        }
        at = item.next;
        if text.len() <= at {
            return Fault::Nothing;
        }
        count += 1;
    }
    Fault::TooMuch
}

// How many segments or minutes a line lists at most. The minutes are those of 33 windows, one more than the rules allow, so that the
// report, and not the script, refuses them.
fn most(minutes: bool) -> u8
    ensures { result ≡ most_of minutes }
{
    if minutes {
        return 66;
    }
    16
}

fn item_at(minutes: bool, text: &[u8], at: usize) -> Item
    ensures { result ≡ item_at minutes text.now at }
{
    if minutes {
        return minute_at(text, at);
    }
    segment_at(text, at)
}

fn segment_at(text: &[u8], at: usize) -> Item
    ensures { result ≡ segment_item text.now at }
{
    let s = segments::segment(text, at);
    let fault = s.fault;
    Item {
        fault,
        next: s.next,
    }
}

// The minute after the blanks at a place. That there is none at the line's end is no fault: the report refuses a list of no windows.
fn minute_at(text: &[u8], at: usize) -> Item
    ensures { result ≡ minute_item text.now at }
{
    let d = number::next(text, at);
    let next = lines::skip_blanks(text, d.next);
    if text.len() <= at {
        return Item {
            fault: Fault::Nothing,
            next,
        };
    }
    if number::is_within(d, number::two_bytes()) {
        return Item {
            fault: Fault::Nothing,
            next,
        };
    }
    Item {
        fault: Fault::Minute,
        next,
    }
}

fn is_fault(fault: Fault) -> bool
    ensures { result ≡ is_fault fault }
{
    match fault {
        Fault::Nothing => false,
        Fault::UnknownWord => true,
        Fault::Number(_, _, _) => true,
        Fault::TextLength => true,
        Fault::Rate => true,
        Fault::Target => true,
        Fault::Hold => true,
        Fault::Minute => true,
        Fault::TooMuch => true,
    }
}
