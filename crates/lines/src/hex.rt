// Hexadecimal digits, as the vectors are written in.
ghost use Rattle.std.specs.Prelude.{◌≡◌, ◌++◌, ◌/◌, ◌<◌, min, length, drop};
ghost use Rattle.lines.specs.Hexadecimal.{digit_value, decoded};

// Puts the bytes that the digits stand for at the start of out, as many as fit, and answers their count.
pub fn decode(digits: &[u8], out: &mut [u8]) -> usize
    ensures { (result ≡ min (length digits.now / 2) (length out.old))
        × (out.new ≡ decoded result digits.now ++ drop result out.old) }
{
    let n = least(digits.len() / 2, out.len());
    let mut i = 0;
    while i < n {
        out[i] = value(digits[2 * i]) * 16 + value(digits[2 * i + 1]);
        i += 1;
    }
    n
}

// The value of a digit 0 to 9 or a to f; 0 for any other byte.
fn value(digit: u8) -> u8
    ensures { (result ≡ digit_value digit) × (result < 16) }
{
    if (b'0' <= digit) & (digit <= b'9') {
        return digit - b'0';
    }
    if (b'a' <= digit) & (digit <= b'f') {
        return digit - 87;
    }
    0
}

fn least(a: usize, b: usize) -> usize
    ensures { result ≡ min a b }
{
    if a < b {
        return a;
    }
    b
}
