// Bytes and big-endian numbers: reads that answer past the end too, and writes that leave a buffer alone where they do not fit.
ghost use Rattle.std.specs.Prelude.{◌≡◌, ◌+◌, ◌≤◌, ◌++◌, length, take, drop, slice_index};
ghost use Rattle.std.proofs.Math.Seq.{paste};
ghost use Rattle.sha256.specs.Bytes.{be, number_at, written, eqs};

// The byte at i, 0 past the end.
pub fn byte_at(s: &[u8], i: usize) -> u8
    ensures { result ≡ slice_index s.now i }
{
    s.get(i).copied().unwrap_or(0)
}

// The first n bytes, or all where there are fewer.
pub fn front(s: &[u8], n: usize) -> &[u8]
    ensures { result.now ≡ take n s.now }
{
    &s[..n.min(s.len())]
}

// The bytes from place n on, none where there are no more than n.
pub fn from(s: &[u8], n: usize) -> &[u8]
    ensures { result.now ≡ drop n s.now }
{
    &s[n.min(s.len())..]
}

// The number in the two bytes from place i on; a byte past the end counts as 0.
pub fn u16_at(s: &[u8], i: usize) -> u16
    ensures { result ≡ number_at 2 s.now i }
{
    let t = from(s, i);
    u16::from_be_bytes([byte_at(t, 0), byte_at(t, 1)])
}

// The number in the four bytes from place i on; a byte past the end counts as 0.
pub fn u32_at(s: &[u8], i: usize) -> u32
    ensures { result ≡ number_at 4 s.now i }
{
    let t = from(s, i);
    u32::from_be_bytes([byte_at(t, 0), byte_at(t, 1), byte_at(t, 2), byte_at(t, 3)])
}

// The two bytes of a number. This function and the next two are to_be_bytes, with the definition's word for it in the contract.
pub fn be2(x: u16) -> [u8; 2]
    ensures { result ≡ be 2 x }
{
    x.to_be_bytes()
}

// The four bytes of a number.
pub fn be4(x: u32) -> [u8; 4]
    ensures { result ≡ be 4 x }
{
    x.to_be_bytes()
}

// The eight bytes of a number.
pub fn be8(x: u64) -> [u8; 8]
    ensures { result ≡ be 8 x }
{
    x.to_be_bytes()
}

// Copies src to place `at` of d. Where it does not fit whole, d keeps its contents.
pub fn put(d: &mut [u8], at: usize, src: &[u8])
    ensures { d.new ≡ written d.old at src.now }
{
    if src.len() <= d.len() && at <= d.len() - src.len() {
        copy(d, at, src);
    }
}

// Copies first and then second, one after the other, to place `at` of d. Where they do not fit whole, d keeps its contents.
pub fn put2(d: &mut [u8], at: usize, first: &[u8], second: &[u8])
    ensures { d.new ≡ written d.old at (first.now ++ second.now) }
{
    if at <= d.len() && first.len() <= d.len() - at && second.len() <= d.len() - at - first.len() {
        put(d, at, first);
        put(d, at + first.len(), second);
    }
}

// Whether a and b hold the same bytes.
pub fn same(a: &[u8], b: &[u8]) -> bool
    ensures { result ≡ eqs a.now b.now }
{
    a == b
}

// The copying loop behind `put`. It is no copy_from_slice: of whoever links the library that needs memmove, and nothing else here does.
fn copy(d: &mut [u8], at: usize, src: &[u8])
    requires { at + length src.now ≤ length d.old }
    ensures { d.new ≡ paste d.old at src.now (length src.now) }
{
    for j in 0..src.len() {
        d[at + j] = src[j];
    }
}
