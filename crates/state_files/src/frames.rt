// Messages on a stream of bytes: a frame is the message's length, 2 bytes, big-endian, and the message.
ghost use Rattle.std.specs.Prelude.{◌≡◌};
ghost use Rattle.state_files.specs.Frame.{frame_length, framed};

use crate::file;
use sha256::bytes;
use std::io::{Read, Write};

// What came from a stream: a whole message and its length, the stream's end, or the beginning of a frame and then the end.
#[derive(Clone, Copy)]
pub enum Frame {
    Whole(usize),
    End,
    Cut,
}

// Reads a frame, its message to the front of the buffer. A message that is longer than the buffer counts as cut.
pub fn receive(input: &mut impl Read, message: &mut [u8]) -> Frame {
    let mut two = [0u8; 2];
    let length: &mut [u8] = &mut two;
    let came = file::read_full(input, length);
    if came == 0 {
        return Frame::End;
    }
    if came < 2 {
        return Frame::Cut;
    }
    let n = bytes::u16_at(length, 0) as usize;
    if fill(input, message, n) {
        Frame::Whole(n)
    } else {
        Frame::Cut
    }
}

// Reads n bytes to the front of the buffer, and answers whether all came.
fn fill(input: &mut impl Read, buffer: &mut [u8], n: usize) -> bool {
    if buffer.len() < n {
        return false;
    }
    if n == 0 {
        return true;
    }
    file::read_full(input, &mut buffer[..n]) == n
}

// Lays the frame of a message at the front of out, and answers its length. A message of more than 4,094 bytes has none: 0, and nothing is
// laid.
fn lay(message: &[u8], out: &mut [u8]) -> usize
    ensures { (result ≡ frame_length message.now) × (out.new ≡ framed message.now out.old) }
{
    if 4094 < message.len() {
        return 0;
    }
    let length = bytes::be2((message.len() % 65536) as u16);
    bytes::put2(out, 0, &length, message);
    message.len() + 2
}

// Writes a frame by one call, and answers whether it went out. A message of more than 4,094 bytes does not.
pub fn send(output: &mut impl Write, message: &[u8]) -> bool {
    let mut out = [0u8; 4096];
    let n = lay(message, &mut out);
    if n == 0 {
        return false;
    }
    output.write_all(bytes::front(&out, n)).is_ok()
}
