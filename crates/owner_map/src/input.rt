// What an input of the program `paths` asks for.
ghost use Rattle.std.specs.Prelude.{◌≡◌};
ghost use Rattle.owner_map.specs.Input.{in_range, asked};

use lines::{read_digits, skip_blanks};

// A table for a count of servers up to a last position, or nothing that can be printed.
#[derive(Clone, Copy)]
pub enum Asked {
    Table(u8, u32),
    Refused,
}

// Reads two decimal numbers with blanks around and between them. An input of more than 4,096 bytes is refused.
pub fn parse(text: &[u8]) -> Asked
    ensures { result ≡ asked text.now }
{
    let first = read_digits(text, skip_blanks(text, 0));
    let second = read_digits(text, skip_blanks(text, first.next));
    let end = skip_blanks(text, second.next);
    let numbers = first.found & second.found & (text.len() <= end);
    let fits = in_range(first.value, second.value);
    let wanted = (text.len() <= 4096) & numbers & fits;
    if wanted {
        return Asked::Table((first.value % 256) as u8, second.value);
    }
    Asked::Refused
}

// Whether a count of servers and a last position are document 01's.
fn in_range(servers: u32, last: u32) -> bool
    ensures { result ≡ in_range servers last }
{
    (2 <= servers) & (servers <= 16) & ((1 <= last) & (last <= 1048576))
}
