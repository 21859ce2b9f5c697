// What a refusal asks of the person who runs the command; docs/OPERATING.md has the same table.
use programs::print;
use std::io;

// What to do after a code, and after the server's where the code is 11; `signed` says whether a write is open whose Commit was handed out.
pub fn after(rt: &impl Print, code: u32, servers_code: u32, signed: bool) -> io::Result<()> {
    if code == 0 {
        return Ok(());
    }
    print::text(rt, b"  what to do: ")?;
    of(rt, code, servers_code, signed)?;
    print::text(rt, b"\n")
}

fn of(rt: &impl Print, code: u32, servers_code: u32, signed: bool) -> io::Result<()> {
    if code != 11 {
        return of_user(rt, code);
    }
    if servers_code == 4 {
        return of_taken(rt, signed);
    }
    of_server(rt, servers_code)
}

// After 4, which says that the position is taken. All servers of a write that is signed had accepted it, so one that follows the rules and
// says 4 now has a later position, which a user reserves only where the Commit is stored. That it follows them is not known: whether the
// entry is in the log is for another user to read.
fn of_taken(rt: &impl Print, signed: bool) -> io::Result<()> {
    if signed {
        print::text(
            rt,
            b"another user wrote before this command was run again. Have that user `read` the position after this version: where this \
            entry stands there, no alarm, and unless that user gives its write up, this key can only read in this log; else an ALARM: \
            OPERATING, 'A write that cannot be finished'",
        )
    } else {
        print::text(
            rt,
            b"another user's write came first or is open, and nothing is lost: run the command again once it has ended; where two open \
            writes keep each other out, one has to `give-up`",
        )
    }
}

// After a server's own code; the alarm is for what servers that follow the rules do not cause.
fn of_server(rt: &impl Print, code: u32) -> io::Result<()> {
    if code == 8 {
        return others(rt);
    }
    if code == 9 {
        return print::text(
            rt,
            b"a server's store is full: give it a larger one, and run the command again",
        );
    }
    if code < 4 {
        return print::text(
            rt,
            b"compare N, the log's name, the list of users and the links with the server's",
        );
    }
    alarm(rt)
}

// After a code that a user gives; 10, 13 to 16 and 23 are an alarm.
fn of_user(rt: &impl Print, code: u32) -> io::Result<()> {
    if code == 12 {
        return others(rt);
    }
    if code < 17 || code == 23 {
        return alarm(rt);
    }
    print::said_of(
        rt,
        code,
        b"17 the key is spent: make a new key, which needs a new list of users and a new log\n\
        18 run the open write's command again, or `give-up`, where that has begun or the entry is not wanted; then this one\n\
        19 mend the entry: at most 1,023 bytes of text, or a position from 1 to the version to strike\n\
        20 the log is full: begin a new one\n\
        22 the state is damaged or of another log: this key must not sign any more; make a new one\n\
        24 name a position from 1 to the version; `update` brings the version up to date\n\
        26 mend the schedule\n\
        28 there is nothing to give up; where a write is open, its command has to be run again\n\
        1000 the state could not be saved: see to the disk, and run the command again\n\
        1001 the server did not answer: see to its link, and run the command again\n\
        else tell the makers: this code should not come here",
    )
}

// After 8 and 12, which come from a write or a give-up of another user that was cut. A give-up tells one server after the other, so until
// it is repeated heads may lie far apart.
fn others(rt: &impl Print) -> io::Result<()> {
    print::text(
        rt,
        b"another user's write or give-up goes on or was cut, and nothing is lost: run the command again once it has ended. An ALARM \
        where it stays and no user has a write open: fire nothing new, keep the folder, compare with other users",
    )
}

fn alarm(rt: &impl Print) -> io::Result<()> {
    print::text(
        rt,
        b"ALARM. Run the command once more; where it is refused again, fire nothing new, keep the folder, compare with other users",
    )
}
