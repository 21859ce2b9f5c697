// The file of cases.
use lines::input;
use std::fs::Files;
use std::{fs, io};

const NAME: &str = "cases.txt";

// Reads the file of cases to the start of text, and answers how many bytes it has. It names the file where it cannot be opened.
pub fn read(rt: &(impl Files + Eprint), text: &mut [u8]) -> io::Result<usize> {
    match fs::open(rt, NAME) {
        Ok(mut file) => input::read_full(&mut file, text),
        Err(e) => {
            eprintln!(rt; "{NAME}: {e}")?;
            Err(e)
        }
    }
}
