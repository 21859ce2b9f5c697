// The numbers of a line.
ghost use Rattle.std.specs.Prelude.{◌≡◌};
ghost use Rattle.script.specs.Number.{whole_number, next_number, two_bytes, is_within, is_wrong};

use lines::Digits;

// The numbers from a least to a greatest one.
#[derive(Clone, Copy)]
pub struct Range {
    pub least: u32,
    pub most: u32,
}

// The numbers that two bytes hold.
pub fn two_bytes() -> Range
    ensures { result ≡ two_bytes }
{
    Range {
        least: 0,
        most: 65535,
    }
}

// The number after the blanks at a place.
pub fn next(line: &[u8], at: usize) -> Digits
    ensures { result ≡ next_number line.now at }
{
    at_place(line, lines::skip_blanks(line, at))
}

// The number at a place. It counts as missing where neither a blank nor the line's end follows it.
pub fn at_place(line: &[u8], at: usize) -> Digits
    ensures { result ≡ whole_number line.now at }
{
    let d = lines::read_digits(line, at);
    let next = d.next;
    if line.len() <= next {
        return d;
    }
    if next < lines::skip_blanks(line, next) {
        return d;
    }
    Digits {
        value: 0,
        found: false,
        next,
    }
}

// Whether a number is there, in a range.
pub fn is_within(d: Digits, range: Range) -> bool
    ensures { result ≡ is_within d range }
{
    d.found & ((range.least <= d.value) & (d.value <= range.most))
}

// Whether number k of a line is wrong, of which its command takes so many.
pub fn is_wrong(k: u8, numbers: u8, d: Digits, range: Range) -> bool
    ensures { result ≡ is_wrong k numbers d range }
{
    if numbers < k {
        return false;
    }
    !is_within(d, range)
}
