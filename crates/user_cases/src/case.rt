// The numbers of a line, read from its text behind the colon. data/README.md says what they mean.
use programs::line;

// Number k, which is counted from 1: 1 is the place that is worked on, 2 the place that is left, 3 what is done.
pub fn number(text: &[u8], k: u8) -> u32 {
    let f = line::numbers(text);
    f[(k as usize + 15) % 16]
}

// What a setting is after the changes of a line, the last first.
pub fn setting(text: &[u8], which: u32, usual: u32) -> u32 {
    let f = line::numbers(text);
    if f[14] == which {
        return f[15];
    }
    if f[12] == which {
        return f[13];
    }
    if f[10] == which {
        return f[11];
    }
    usual
}

// Changes the byte of d that a line says, as its first change, where it is one of those from `first` on.
pub fn patch(text: &[u8], first: u32, d: &mut [u8]) {
    line::patch(d, first, 0, number(text, 11), number(text, 12));
}
