// The entry that the numbers of a line make.
use programs::numbers;
use sha256::bytes;

// Puts an entry's bytes at the start of out, which is zero before, and answers the entry's length.
pub fn make(text: &[u8], out: &mut [u8]) -> usize {
    let first = numbers::after(text);
    let count = numbers::after(first);
    let head = [
        (numbers::number(first) % 256) as u8,
        (numbers::number(count) % 256) as u8,
    ];
    bytes::put(out, 0, &head);
    put_segments(numbers::after(count), out);
    numbers::number(text) as usize
}

// Puts numbers one after the other from place 2 on, the lower two bytes of each.
fn put_segments(text: &[u8], out: &mut [u8]) {
    let mut at: usize = 0;
    let mut k: usize = 0;
    while at < text.len() {
        let rest = bytes::from(text, at);
        let two = bytes::be2((numbers::number(rest) % 65536) as u16);
        bytes::put(out, 2 + 2 * k, &two);
        at += lines::find(rest, b' ') + 1;
        k += 1;
    }
}
