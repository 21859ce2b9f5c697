// What a code says, in the words of document 01's table; 26 to 28 and 32 to 34 are document 02's.
use crate::print;
use std::io;

// The sentence of a refusal, and of the server's where the code is 11. Nothing for 0.
pub fn refusal(rt: &impl Print, code: u8, servers_code: u8) -> io::Result<()> {
    if code == 0 {
        return Ok(());
    }
    print::text(rt, b"  refused: ")?;
    if code == 11 {
        print::text(rt, b"the server says: ")?;
        of_server(rt, servers_code)?;
    } else {
        of_user(rt, code)?;
    }
    print::text(rt, b"\n")
}

// Codes 1 to 9 and 27, which servers give.
fn of_server(rt: &impl Print, code: u8) -> io::Result<()> {
    print::said_of(
        rt,
        code as u32,
        b"1 the request is misshapen or its author is not listed\n\
        2 this is another log\n\
        3 another server owns this node\n\
        4 the position is lower than the head's, or held by another author or digest\n\
        5 this is not the head's position and author\n\
        6 other bytes are stored for this node and kind\n\
        7 the digest is not the reserved one, or the signature fails\n\
        8 nothing is stored for this node\n\
        9 the store has no room for this record\n\
        27 the head has another position, author or digest than the write that is given up, or no earlier head\n\
        else a code that no server has",
    )
}

// Codes that a user gives: 10 and 12 to 16 for what the answers say; 17 to 24 for what the user has or was asked to do, with 23 for a Read;
// 26 for a schedule, 28 for a give-up, 32 for a warm kiln's starts, and 33 and 34 for opening hours.
fn of_user(rt: &impl Print, code: u8) -> io::Result<()> {
    print::said_of(
        rt,
        code as u32,
        b"10 the answer is misshapen or not to this request\n\
        12 the greatest and the least label of the heads are N or more apart\n\
        13 the heads are behind this user's version\n\
        14 the Record's author is not listed, or its signature fails\n\
        15 the hashes do not give this user's own digest\n\
        16 the hashes do not give the digest of the newest position\n\
        17 all 1024 signature numbers are used\n\
        18 this user's write is open, and has to be resumed or given up first\n\
        19 the entry is empty, too long or misshapen, or strikes a position past the log\n\
        20 the log has no position left\n\
        21 a lent buffer is too short\n\
        22 a setting is out of its range\n\
        23 what was read does not give this user's own digest\n\
        24 the position is not in this user's version\n\
        26 the schedule breaks its rules, or the entry is no schedule\n\
        28 no write is open, or its PutOperation was handed out\n\
        32 the range of starts is crossed or has an end out of range, or the first rate breaks the sign rule for a start in it\n\
        33 the minute or the number of windows is out of range, or a window is empty, out of range, out of order or overlapping\n\
        34 no start within a week has its every minute in windows\n\
        else a code that no user has",
    )
}
