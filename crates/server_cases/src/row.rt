// A line of the file: a name, a colon and a space, and up to 16 numbers with a space between them. data/README.md counts them from 1,
// the code from 0: the server at 0, whether it is kept at 1, the request from 2 to 9, and three changes from 10 on.
ghost use Rattle.std.specs.Prelude.{◌≡◌, length};

use crate::{call, sent};
use exchange::server_place;
use programs::{line, print};
use sha256::bytes;
use std::io;

// Makes the call that a line says, and prints the line's name and what the call gave.
pub fn run(rt: &impl Print, text: &[u8], world: &mut [u8], keys: &[u8]) -> io::Result<()> {
    let n = lines::find(text, b':');
    let f = line::numbers(bytes::from(bytes::from(text, n), 2));
    let at = (f[0] % 8) as usize * call::PLACE;
    let mut place = [0u8; call::PLACE];
    bytes::put(
        &mut place,
        0,
        bytes::front(bytes::from(world, at), call::PLACE),
    );
    line::patch(&mut place, 3000, server_place::STORE as u8, f[10], f[11]);
    line::patch(&mut place, 6000, 0, f[10], f[11]);
    print::text(rt, bytes::front(text, n))?;
    made(rt, f, &mut place, keys)?;
    if f[1] == 1 {
        bytes::put(world, at, &place);
    }
    Ok(())
}

// The call of a line on a server's place, with the changes that the line names.
fn made(rt: &impl Print, f: [u32; 16], place: &mut [u8], keys: &[u8]) -> io::Result<()>
    requires { length place.old ≡ 8232 }
{
    let mut request = [0u8; 2600];
    let n = sent::request(f, keys, &mut request);
    let s = call::usual(f[0], n, place);
    line::patch(&mut request, 100, 0, f[10], f[11]);
    call::serve(rt, line::changed(s, f), keys, place, &request)
}
