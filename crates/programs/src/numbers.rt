// Numbers that a text lists with blanks between them. One below 0 stands for its two's complement in four bytes, so that -1 is
// 4,294,967,295; one with more than seven digits counts as 9,999,999.
ghost use Rattle.std.specs.Prelude.{◌≡◌, ◌≤◌, length, take};
ghost use Rattle.sha256.specs.Bytes.{written};
ghost use Rattle.programs.specs.Listed.{negated as negated_of, signed_at, after as after_word, numbers_in};

use lines::Digits;
use sha256::bytes;

// The number that a text begins with.
pub fn number(text: &[u8]) -> u32
    ensures { result ≡ (signed_at text.now 0).value }
{
    number_at(text, 0).value
}

// What follows the word or the number that a text begins with.
pub fn after(text: &[u8]) -> &[u8]
    ensures { result.now ≡ after_word text.now }
{
    bytes::from(bytes::from(text, lines::find(text, b' ')), 1)
}

// Lays the numbers of a text one after the other from the front of out, as many as have room there, and answers how many they are.
pub fn lay(text: &[u8], out: &mut [u32]) -> usize
    ensures prefix_len { (result ≤ length out.new) × (result ≡ length (take result out.new)) }
    ensures value { (result ≡ length (numbers_in text.now (length out.old)))
        × (out.new ≡ written out.old 0 (numbers_in text.now (length out.old))) }
{
    let mut at = lines::skip_blanks(text, 0);
    let mut count: usize = 0;
    while count < out.len() {
        if text.len() <= at {
            return count;
        }
        let d = number_at(text, at);
        out[count] = d.value;
        at = lines::skip_blanks(text, d.next);
        count += 1;
    }
    count
}

// The number at a place, and what follows it.
fn number_at(text: &[u8], at: usize) -> Digits
    ensures { result ≡ signed_at text.now at }
{
    if bytes::byte_at(text, at) != b'-' {
        return lines::read_digits(text, at);
    }
    negated(lines::read_digits(text, at + 1))
}

// The number below 0 with these digits.
fn negated(d: Digits) -> Digits
    ensures { result ≡ negated_of d }
{
    Digits {
        value: ((4294967296 - d.value as u64) % 4294967296) as u32,
        found: d.found,
        next: d.next,
    }
}
