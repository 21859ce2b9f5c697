// What a program says on standard error. Where that cannot be written, nothing is said.
ghost use Rattle.std.specs.Prelude.{◌≡◌};
ghost use Rattle.state_files.specs.Slot.{is_cut};

use crate::slot;
use std::io;

// A line.
pub fn line(rt: &impl Eprint, text: &str) {
    let _ = rt.eprintln(text);
}

// What failed, and why in the system's words.
pub fn failure<R: Eprint + Alloc>(rt: &R, what: &str, error: io::Error) {
    let _ = match format!(in rt.alloc(); "{error}") {
        Ok(text) => {
            let why = without_number(text.as_str());
            eprintln!(rt; "{what}: {why}")
        }
        Err(_) => eprintln!(rt; "{what}: {error}"),
    };
}

// An error's words, without the number that std puts behind those of the system.
fn without_number(text: &str) -> &str {
    match text.split_once(" (os error ") {
        Some((words, _)) => words,
        None => text,
    }
}

// Says it where one of two slots holds something and is not whole: a save was cut, or the file was damaged.
pub fn cut_slots(rt: &impl Eprint, first: &[u8], one: bool, second: &[u8], two: bool) {
    if is_cut(first, one) || is_cut(second, two) {
        line(
            rt,
            "one of the two saved states is not whole: OPERATING, Files",
        );
    }
}

// Whether a slot that does not count holds something.
fn is_cut(s: &[u8], counts: bool) -> bool
    ensures { result ≡ is_cut s.now counts }
{
    if counts {
        return false;
    }
    slot::number_at(s, 0) != 0
}
