// A line of a studio script: a word, one to four numbers, and a text, the segments of a schedule or the minutes of windows, which take the
// rest of the line.
#![tactic(auto)]

mod form;
mod list;
mod number;
pub mod segments;

ghost use Rattle.std.specs.Prelude.{◌≡◌, length};
ghost use Rattle.script.specs.Length.{too_long};
ghost use Rattle.lines.specs.Memory.{zeros};
ghost use Rattle.script.specs.Line.{is_idle, numbers_at, end_of, length_fault, left_fault, fault_of, command_of};

use form::{Form, Rest};
use lines::Digits;
use sha256::bytes;

// How many bytes a script may have.
pub const MOST: usize = 65536;

#[derive(Clone, Copy)]
pub enum Word {
    Servers,
    Write,
    Strike,
    Read,
    Update,
    Board,
    Settled,
    Cut,
    Resume,
    GiveUp,
    CutGiveUp,
    Fork,
    Fire,
    Report,
    Warm,
    Begin,
    Unknown,
}

// What is wrong with a line: its word; one of its numbers, counted from 1, which is missing or not from a least to a greatest one; a text
// that is missing or too long; a rate, a target, a hold or a window's minute that is missing or that two bytes do not hold; or that the
// line has more than its command takes.
#[derive(Clone, Copy)]
pub enum Fault {
    Nothing,
    UnknownWord,
    Number(u8, u32, u32),
    TextLength,
    Rate,
    Target,
    Hold,
    Minute,
    TooMuch,
}

// A command: its word, its numbers, and the place on the line where its text or what it lists begins.
#[derive(Clone, Copy)]
pub struct Command {
    pub word: Word,
    pub first: u32,
    pub second: u32,
    pub third: u32,
    pub fourth: u32,
    pub text: usize,
    pub fault: Fault,
}

// The numbers after the word of a line, whether its command takes them or not.
#[derive(Clone, Copy)]
struct Numbers {
    first: Digits,
    second: Digits,
    third: Digits,
    fourth: Digits,
}

// The memory that a script is read into, zero: it has one byte more than a script may have, so that a longer one is seen to be longer.
pub fn memory() -> [u8; 65537]
    ensures { (65537 ≡ length result) × (result ≡ zeros 65537) }
{
    [0; 65537]
}

// Whether a script has more bytes than it may have.
pub fn is_too_long(text: &[u8]) -> bool
    ensures { result ≡ too_long text.now }
{
    MOST < text.len()
}

// Whether a line says nothing: it is empty or a comment.
pub fn is_idle(line: &[u8]) -> bool
    ensures { result ≡ is_idle line.now }
{
    let start = lines::skip_blanks(line, 0);
    if line.len() <= start {
        return true;
    }
    bytes::byte_at(line, start) == b'#'
}

// The command of a line that does not begin with a blank, for a log of so many servers.
pub fn parse(line: &[u8], servers: u8) -> Command
    ensures { result ≡ command_of line.now servers }
{
    let size = lines::find(line, b' ');
    let form = form::of_word(bytes::front(line, size), servers);
    let n = numbers_at(line, size);
    let text = lines::skip_blanks(line, end(form, n));
    let fault = fault_of(form, n, bytes::from(line, text));
    let word = form.word;
    Command {
        word,
        first: n.first.value,
        second: n.second.value,
        third: n.third.value,
        fourth: n.fourth.value,
        text,
        fault,
    }
}

// The four numbers from a place on, blanks before each.
fn numbers_at(line: &[u8], at: usize) -> Numbers
    ensures { result ≡ numbers_at line.now at }
{
    let first = number::next(line, at);
    let second = number::next(line, first.next);
    let third = number::next(line, second.next);
    let fourth = number::next(line, third.next);
    Numbers {
        first,
        second,
        third,
        fourth,
    }
}

// Where the numbers end that a command takes.
fn end(form: Form, n: Numbers) -> usize
    ensures { result ≡ end_of form n }
{
    if 4 <= form.numbers {
        return n.fourth.next;
    }
    if 3 <= form.numbers {
        return n.third.next;
    }
    if 2 <= form.numbers {
        return n.second.next;
    }
    n.first.next
}

// What is wrong with a line, whose numbers are followed by what is left of it.
fn fault_of(form: Form, n: Numbers, left: &[u8]) -> Fault
    ensures { result ≡ fault_of form n left.now }
{
    if form.numbers == 0 {
        return Fault::UnknownWord;
    }
    if number::is_wrong(1, form.numbers, n.first, form.first) {
        return Fault::Number(1, form.first.least, form.first.most);
    }
    if number::is_wrong(2, form.numbers, n.second, form.second) {
        return Fault::Number(2, form.second.least, form.second.most);
    }
    if number::is_wrong(3, form.numbers, n.third, number::two_bytes()) {
        return Fault::Number(3, 0, 65535);
    }
    if number::is_wrong(4, form.numbers, n.fourth, number::two_bytes()) {
        return Fault::Number(4, 0, 65535);
    }
    let rest = form.rest;
    left_fault(rest, left)
}

// What is wrong with what is left of a line behind its numbers.
fn left_fault(rest: Rest, left: &[u8]) -> Fault
    ensures { result ≡ left_fault rest left.now }
{
    match rest {
        Rest::Nothing => length_fault(0, 0, left.len(), Fault::TooMuch),
        Rest::Text => length_fault(1, 1023, left.len(), Fault::TextLength),
        Rest::Segments => list::fault(false, left),
        Rest::Minutes => list::fault(true, left),
    }
}

// What is wrong with so many bytes: nothing, where they are from a least to a greatest number, and else this.
fn length_fault(least: usize, most: usize, length: usize, fault: Fault) -> Fault
    ensures { result ≡ length_fault least most length fault }
{
    if (least <= length) & (length <= most) {
        return Fault::Nothing;
    }
    fault
}
