// What the commands of a script take (docs/STUDIO.md): a row for each word.
ghost use Rattle.std.specs.Prelude.{cond, ◌≡◌};
ghost use Rattle.sha256.specs.Bytes.{eqs};
ghost use Rattle.script.specs.Form.{row, cut_row, form_of, reading_form_of, giving_form_of, kiln_form_of};

use crate::Word;
use crate::number::Range;
use sha256::bytes;

// What stands behind a command's numbers.
#[derive(Clone, Copy)]
pub enum Rest {
    Nothing,
    Text,
    Segments,
    Minutes,
}

// What a command takes: its word, how many numbers (none where the word is unknown), the ranges of the first and of the second, and what
// stands behind them.
#[derive(Clone, Copy)]
pub struct Form {
    pub word: Word,
    pub numbers: u8,
    pub first: Range,
    pub second: Range,
    pub rest: Rest,
}

// A command whose second number, if it takes one, is a position.
fn row(word: Word, numbers: u8, least: u32, most: u32, rest: Rest) -> Form
    ensures { result ≡ row word numbers least most rest }
{
    Form {
        word,
        numbers,
        first: Range { least, most },
        second: Range {
            least: 1,
            most: 1048576,
        },
        rest,
    }
}

// What a command of one of three users takes.
fn user(word: Word, numbers: u8, rest: Rest) -> Form
    ensures { result ≡ row word numbers 1 3 rest }
{
    row(word, numbers, 1, 3, rest)
}

// A call that is cut: its second number says after how many answers.
fn cut(word: Word, rest: Rest) -> Form
    ensures { result ≡ cut_row word rest }
{
    Form {
        word,
        numbers: 2,
        first: Range { least: 1, most: 3 },
        second: Range { least: 0, most: 98 },
        rest,
    }
}

// A row for the word with this name, and another one for any other word.
fn named(s: &[u8], name: &[u8], form: Form, other: Form) -> Form
    ensures { result ≡ cond (eqs s.now name.now) form other }
{
    if bytes::same(s, name) {
        return form;
    }
    other
}

// What the command with this word takes, on a log of so many servers: `servers` and `fork`, whose number counts servers, and the commands
// that take a text.
pub fn of_word(s: &[u8], servers: u8) -> Form
    ensures { result ≡ form_of s.now servers }
{
    let all = row(Word::Servers, 1, 2, 16, Rest::Nothing);
    let one = row(Word::Fork, 1, 1, servers as u32, Rest::Nothing);
    let a = of_reading_word(s);
    let b = named(s, b"resume", user(Word::Resume, 1, Rest::Text), a);
    let c = named(s, b"cut", cut(Word::Cut, Rest::Text), b);
    let d = named(s, b"write", user(Word::Write, 1, Rest::Text), c);
    let e = named(s, b"fork", one, d);
    named(s, b"servers", all, e)
}

// The commands that take nothing but numbers.
fn of_reading_word(s: &[u8]) -> Form
    ensures { result ≡ reading_form_of s.now }
{
    let a = of_giving_word(s);
    let b = named(s, b"settled", user(Word::Settled, 2, Rest::Nothing), a);
    let c = named(s, b"read", user(Word::Read, 2, Rest::Nothing), b);
    let d = named(s, b"strike", user(Word::Strike, 2, Rest::Nothing), c);
    let e = named(s, b"board", user(Word::Board, 1, Rest::Nothing), d);
    named(s, b"update", user(Word::Update, 1, Rest::Nothing), e)
}

// The commands that give an open write up, to the end or for some answers.
fn of_giving_word(s: &[u8]) -> Form
    ensures { result ≡ giving_form_of s.now }
{
    let all = user(Word::GiveUp, 1, Rest::Nothing);
    let some = cut(Word::CutGiveUp, Rest::Nothing);
    let a = of_kiln_word(s);
    let b = named(s, b"cut-give-up", some, a);
    named(s, b"give-up", all, b)
}

// The commands for schedules. Any other word is unknown, and takes no number.
fn of_kiln_word(s: &[u8]) -> Form
    ensures { result ≡ kiln_form_of s.now }
{
    let a = user(Word::Unknown, 0, Rest::Nothing);
    let b = named(s, b"begin", user(Word::Begin, 3, Rest::Minutes), a);
    let c = named(s, b"warm", user(Word::Warm, 4, Rest::Nothing), b);
    let d = named(s, b"report", user(Word::Report, 2, Rest::Nothing), c);
    named(s, b"fire", user(Word::Fire, 1, Rest::Segments), d)
}
