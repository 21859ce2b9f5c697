// What a line does.
use crate::{answer, case, report, step, work};
use exchange::{run, user_place};
use programs::print;
use sha256::bytes;
use std::io;

// Does what a line says, and prints the line's name and what came of it.
pub fn run(rt: &impl Print, text: &[u8], world: &mut [u8]) -> io::Result<()> {
    let n = lines::find(text, b':');
    print::text(rt, bytes::front(text, n))?;
    copied(rt, bytes::from(bytes::from(text, n), 2), world)?;
    print::text(rt, b"\n")
}

// Does what a line says on copies of its place and of the servers, and leaves them where the line says, if it does.
fn copied(rt: &impl Print, text: &[u8], world: &mut [u8]) -> io::Result<()> {
    let mut space = work::copies();
    let work: &mut [u8] = &mut space;
    work::load(world, case::number(text, 1), work);
    case::patch(text, 3000, work);
    done(rt, text, work)?;
    let left = case::number(text, 2);
    if left != 0 {
        work::keep(world, left, work);
    }
    Ok(())
}

// What a line does, and what is printed of it: nothing, whether a position is settled, a Write that is cut and resumed, or a step.
fn done(rt: &impl Print, text: &[u8], work: &mut [u8]) -> io::Result<()> {
    let what = case::number(text, 3);
    if what == 0 {
        return Ok(());
    }
    if what == 4 {
        return report::settled(rt, text, work);
    }
    if what == 7 {
        return cut(rt, text, work);
    }
    stepped(rt, text, what, work)?;
    report::state(rt, work)
}

// Some of the servers' answers, a made-up answer, or the start of a Write or of another call.
fn stepped(rt: &impl Print, text: &[u8], what: u32, work: &mut [u8]) -> io::Result<()> {
    let number = case::number(text, 4);
    if what == 5 {
        let n = answers(text, number as usize, work);
        return print::number(rt, b": answers ", n);
    }
    if what == 6 {
        answer::made(text, work);
        return Ok(());
    }
    if what == 2 {
        start_write(text, case::number(text, 7), work);
        return Ok(());
    }
    step::step(text, kind(what), number, b"", work);
    Ok(())
}

// The kind of the start that a line says: 1 an Update, 3 a Read, 8 a give-up.
fn kind(what: u32) -> u8 {
    if what == 8 {
        return 4;
    }
    (what % 256) as u8
}

// The start of a Write of the entry that a line says, by its first byte, its length and a number.
fn start_write(text: &[u8], randomizer: u32, work: &mut [u8]) {
    let e = answer::entry((case::number(text, 4) % 256) as u8, case::number(text, 6));
    let entry = bytes::front(&e, case::number(text, 5) as usize);
    step::step(text, 2, randomizer, entry, work);
}

// Takes in at most this many answers of the servers, until the call ends, and answers how many they were.
fn answers(text: &[u8], most: usize, work: &mut [u8]) -> usize {
    let mut taken: usize = 0;
    while taken < most {
        if user_place::ended(work) {
            return taken;
        }
        answer::turn(text, work);
        taken += 1;
    }
    taken
}

// A Write that is cut after some answers, its last request arriving or not, and resumed to its end with a randomizer that may be
// another. A Write that had ended is not resumed.
fn cut(rt: &impl Print, text: &[u8], work: &mut [u8]) -> io::Result<()> {
    start_write(text, 1, work);
    let before = answers(text, case::number(text, 7) as usize, work);
    print::number(rt, b": answers ", before)?;
    report::step(rt, work)?;
    if user_place::ended(work) {
        return report::servers(rt, work);
    }
    arrive(case::number(text, 8) == 1, work);
    resume(rt, text, work)
}

// The request that is out arrives, if it does, and its answer is lost.
fn arrive(does: bool, work: &mut [u8]) {
    if !does {
        return;
    }
    let mut lost = [0u8; 2600];
    run::asked(work::run(), 1, work, &mut lost);
}

// Starts the Write of a line anew, with what is kept, the path and the signature alone left over, and takes it to its end.
fn resume(rt: &impl Print, text: &[u8], work: &mut [u8]) -> io::Result<()> {
    user_place::forget(work);
    start_write(text, case::number(text, 9), work);
    let after = answers(text, run::ALL as usize, work);
    print::number(rt, b"; resumed, answers ", after)?;
    report::step(rt, work)?;
    report::servers(rt, work)
}
