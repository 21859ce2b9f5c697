// Text as programs read it: lines, blanks and decimal numbers; in `hex`, hexadecimal digits, in `input`, reading until a text is full.
#![tactic(auto)]

pub mod hex;
pub mod input;

ghost use Rattle.std.specs.Prelude.{cond, ◌≡◌, ◌+◌, ◌*◌, ◌%◌, ◌≤◌, ltb, length};
ghost use Rattle.lines.specs.Text.{is_blank, is_digit, is_other, run, line_length, digits_at, after_blanks};

// A number read from a text: its value, at most 9,999,999 (a larger one counts as that), whether a digit was there, and what is
// left is at `next`.
#[derive(Clone, Copy)]
pub struct Digits {
    pub value: u32,
    pub found: bool,
    pub next: usize,
}

// The first place where s has the byte b, or the length of s where there is none.
pub fn find(s: &[u8], b: u8) -> usize
    ensures { (result ≡ run (is_other b) s.now) × (result ≤ length s.now) }
{
    let mut at = 0;
    while at < s.len() {
        if s[at] == b {
            return at;
        }
        at += 1;
    }
    at
}

// How many bytes the first line of a text has without its line end, which is LF, or CR and LF; a last line may have none.
pub fn line_length(text: &[u8]) -> usize
    ensures { result ≡ line_length text.now }
{
    let feed = find(text, b'\n');
    if text.len() <= feed {
        return feed;
    }
    if feed == 0 {
        return 0;
    }
    if text[feed - 1] == b'\r' {
        return feed - 1;
    }
    feed
}

// The first place from `at` on that is no blank.
pub fn skip_blanks(text: &[u8], at: usize) -> usize
    ensures { result ≡ after_blanks text.now at }
{
    let mut i = at;
    while i < text.len() {
        if !is_blank(text[i]) {
            return i;
        }
        i += 1;
    }
    i
}

// The decimal number from `at` on, up to the first byte that is no digit.
pub fn read_digits(text: &[u8], at: usize) -> Digits
    ensures { result ≡ digits_at text.now at }
{
    let mut value: u32 = 0;
    let mut i = at;
    while i < text.len() {
        let b = text[i];
        if !is_digit(b) {
            return Digits {
                value,
                found: at < i,
                next: i,
            };
        }
        value = longer(value, b);
        i += 1;
    }
    Digits {
        value,
        found: at < i,
        next: i,
    }
}

// Whether a byte is a space, a tab or a byte of a line end.
fn is_blank(b: u8) -> bool
    ensures { result ≡ is_blank b }
{
    (b == b' ') | (b == b'\t') | (b == b'\n') | (b == b'\r')
}

fn is_digit(b: u8) -> bool
    ensures { result ≡ is_digit b }
{
    (b'0' <= b) & (b <= b'9')
}

// A number with one more decimal digit, at most 9,999,999.
fn longer(value: u32, digit: u8) -> u32
    ensures { result ≡ cond (ltb 999999 value) 9999999 (value * 10 + digit % 16 % 10) }
{
    if 999999 < value {
        return 9999999;
    }
    value * 10 + (digit % 16) as u32 % 10
}
