// What is printed: a name and what was computed.
use std::io;

// A name and bytes in hexadecimal digits to a line.
pub fn in_hexadecimal(rt: &impl Print, name: &str, what: &str, s: &[u8]) -> io::Result<()> {
    print!(rt; "{name} {what} ")?;
    for byte in s {
        print!(rt; "{byte:02x}")?;
    }
    println!(rt;)
}

// What a check answered.
pub fn answer(rt: &impl Print, name: &str, checked: Option<u32>) -> io::Result<()> {
    match checked {
        None => println!(rt; "{name}: refused"),
        Some(number) => println!(rt; "{name}: accepted, number {number}"),
    }
}
