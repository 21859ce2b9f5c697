// Document 01's table of paths: what an input asks for, the rows in lent bytes, and the program's whole output, written in pieces.
#![tactic(auto)]

pub mod input;
pub mod rows;

ghost use Rattle.std.specs.Prelude.{◌≡◌, false, List, ◌++◌, ℕ, IsOk, IfOk};
ghost use Rattle.sha256.specs.Hash.{sha256};
ghost use Rattle.sha256.specs.Inner.{streamed};
ghost use Rattle.owner_map.specs.Input.{asked as asked_by};
ghost use Rattle.owner_map.specs.Table.{table};
ghost use Rattle.owner_map.specs.Answer.{answer};

use input::Asked;
use sha256::bytes;
use sha256::stream::Sha;
use std::io;

// Writes what an input asks for, the table or `22`, where `write` says so. Answers the hash of the answer's bytes: no contract can speak of
// what is written, so the pieces that are written are hashed as well, and the contract speaks of these. It fails where a write fails.
pub fn send_answer(rt: &impl Print, input: &[u8], write: bool) -> io::Result<[u8; 32]>
    ensures hash { IfOk result (λ hash. hash ≡ sha256 (answer (asked_by input.now))) }
    ensures unwritten { write ≡ false → IsOk result }
{
    let asked = input::parse(input);
    match asked {
        Asked::Table(n, last) => send_table(rt, n, last, write),
        Asked::Refused => {
            let sent = send_piece(rt, Sha::begin(b""), b"22\n", write)?;
            Ok(sent.finish())
        }
    }
}

// The table in pieces: the head line, and as many rows as fit into 65,536 bytes at a time.
fn send_table(rt: &impl Print, n: u8, last: u32, write: bool) -> io::Result<[u8; 32]>
    ensures hash { IfOk result (λ hash. hash ≡ sha256 (table n last)) }
    ensures unwritten { write ≡ false → IsOk result }
{
    let mut space = [0u8; 65536];
    let out: &mut [u8] = &mut space;
    let mut sent = send_piece(rt, Sha::begin(b""), b"p first leaf root wait\n", write)?;
    let mut done: u32 = 0;
    while done < last {
        let piece = rows::fill(out, n, done, last);
        done = piece.done;
        sent = send_piece(rt, sent, bytes::front(out, piece.length), write)?;
    }
    Ok(sent.finish())
}

// The hash's state after one more piece. The piece is written where `write` says so.
fn send_piece(rt: &impl Print, sent: Sha, piece: &[u8], write: bool) -> io::Result<Sha>
    ensures state { IfOk result (λ state. (m : List ℕ) → sent ≡ streamed m → state ≡ streamed (m ++ piece.now)) }
    ensures unwritten { write ≡ false → IsOk result }
{
    if write {
        rt.write_all(piece)?;
    }
    Ok(sent.update(piece))
}
