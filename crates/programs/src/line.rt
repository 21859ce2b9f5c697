// A line of a file of cases: a name, a colon and a space, and up to 16 numbers with a space between them, counted from 0. A bar stands
// before number 10, where three changes begin, each a pair of what is changed and its value.
ghost use Rattle.std.specs.Prelude.{◌≡◌, ◌≤◌, ◌<◌, min};
ghost use Rattle.programs.specs.Case.{number_after, longer as longer_by, numbers_of, changed_once, changed as changed_by, patched};

use sha256::bytes;

// The numbers of a text, 0 for those that it has not, each of at most nine digits.
pub fn numbers(text: &[u8]) -> [u32; 16]
    ensures { result ≡ numbers_of text.now }
{
    let mut f = [0u32; 16];
    let mut k = 0;
    let mut i = 0;
    while i < text.len() {
        let b = text[i];
        k = number_of(k, b);
        let v = longer(f[k], b);
        f[k] = v;
        i += 1;
    }
    f
}

// Which number is read after the byte b: a space goes on to the next, and a bar to the one before the changes.
fn number_of(k: usize, b: u8) -> usize
    ensures { (result ≡ number_after k b) × (result < 16) }
{
    if b == b'|' {
        return 9;
    }
    if b == b' ' {
        return (k % 16 + 1) % 16;
    }
    k % 16
}

// A number with one more digit, where b is one.
fn longer(v: u32, b: u8) -> u32
    ensures { result ≡ longer_by v b }
{
    if b == b' ' {
        return v;
    }
    if b == b'|' {
        return v;
    }
    v % 100000000 * 10 + (b % 16 % 10) as u32
}

// The settings with the changes of a line; a change of what is no setting does nothing. What is at 0 means nothing.
pub fn changed(s: [u32; 12], f: [u32; 16]) -> [u32; 12]
    ensures { result ≡ changed_by s f }
{
    let a = set(s, f[10], f[11]);
    let b = set(a, f[12], f[13]);
    set(b, f[14], f[15])
}

// The settings with one of them changed.
fn set(s: [u32; 12], what: u32, value: u32) -> [u32; 12]
    ensures { result ≡ changed_once s what value }
{
    if 12 <= what {
        return s;
    }
    let mut t = s;
    t[what as usize] = value;
    t
}

// Changes a byte of d, where the change is one of the 2,900 from `first` on: that many bytes after the skipped ones.
pub fn patch(d: &mut [u8], first: u32, skip: u8, what: u32, value: u32)
    ensures { d.new ≡ patched d.old first skip what value }
{
    if what < first {
        return;
    }
    if 2900 <= what - first {
        return;
    }
    let new = [(value % 256) as u8];
    bytes::put(d, (what - first) as usize + skip as usize, &new);
}

// n, or `most` where that is less.
pub fn at_most(n: u32, most: usize) -> usize
    ensures { (result ≡ min n most) × (result ≤ most) }
{
    let k = n as usize;
    if k < most {
        return k;
    }
    most
}
