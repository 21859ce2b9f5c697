// The rows of the table of paths, laid into lent bytes.
ghost use Rattle.std.specs.Prelude.{◌≡◌, true, ◌+◌, ◌-◌, ◌<◌, ◌≤◌, length, drop};
ghost use Rattle.sha256.specs.Bytes.{written};
ghost use Rattle.tree.specs.Inner.{are_first_labels};
ghost use Rattle.owner_map.specs.Table.{decimal, cell, row, fitting, piece};

use sha256::bytes;
use tree::{first_labels, label};

// Rows in a buffer: how many bytes they have, and the position of the last of them.
#[derive(Clone, Copy)]
pub struct Piece {
    pub length: usize,
    pub done: u32,
}

// Lays rows from the position behind `done` up to `last`, as long as a row is sure to fit. The bytes behind them stay as they were. The
// table of first labels is taken once for all of these rows (document 02, c).
pub fn fill(out: &mut [u8], n: u8, done: u32, last: u32) -> Piece
    ensures { (out.new ≡ written out.old 0 (piece n done last (length out.old)))
        × ((result.length ≡ length (piece n done last (length out.old)))
        × ((result.length ≤ length out.old)
        × (result.done ≡ done + fitting n done (last - done) (length out.old)))) }
{
    let labels = first_labels::table();
    let mut at = 0;
    let mut p = done;
    while p < last {
        if out.len() - at < 105 {
            return Piece {
                length: at,
                done: p,
            };
        }
        p += 1;
        at = append_row(out, at, labels, n, p);
    }
    Piece {
        length: at,
        done: p,
    }
}

// Puts the row of position p with n servers behind the first `at` bytes of out, and answers how many bytes are there then. Both owners are
// found from the first label: the leaf has it, and the digest, at the path's end, has lg(p) more.
fn append_row(out: &mut [u8], at: usize, labels: &[u32; 1024], n: u8, p: u32) -> usize
    requires { (at + 105 ≤ length out.old) × (are_first_labels 1024 labels.now ≡ true) }
    ensures { (out.new ≡ written out.old at (row n p))
        × ((result ≡ at + length (row n p)) × (result ≤ at + 105)) }
{
    let first = label::first_label_in(labels, p);
    let leaf = label::owner_of(n, first);
    let root = label::owner_of(n, first + (label::lg(p) as u64));
    let a = append_number(out, at, p as u64, b' ');
    let b = append_number(out, a, first, b' ');
    let c = append_number(out, b, leaf as u64, b' ');
    let d = append_number(out, c, root as u64, b' ');
    append_number(out, d, label::wait(p, n) as u64, b'\n')
}

// Puts a number in decimal, and the byte that follows it.
fn append_number(out: &mut [u8], at: usize, number: u64, end: u8) -> usize
    requires { at + 21 ≤ length out.old }
    ensures { (out.new ≡ written out.old at (cell number end))
        × ((result ≡ at + length (cell number end)) × (result ≤ at + 21)) }
{
    let mut text = [0u8; 20];
    let first = digits(number, &mut text);
    bytes::put2(out, at, bytes::from(&text, first), &[end]);
    at + (20 - first) + 1
}

// Puts the decimal digits of a number at the end of a text, and answers the place of the first of them.
fn digits(number: u64, text: &mut [u8; 20]) -> usize
    ensures within { result < 20 }
    ensures digits { drop result text.new ≡ decimal number }
{
    let mut at = 19;
    let mut rest = number;
    while rest >= 10 {
        text[at] = b'0' + (rest % 10) as u8;
        rest /= 10;
        at -= 1;
    }
    text[at] = b'0' + rest as u8;
    at
}
