// A server of a log over standard input and output, its head and store in a folder: docs/OPERATING.md. An answer leaves once what it
// promises is on the folder's device.
#![tactic(auto)]

mod log;
mod serve;

ghost use Rattle.std.specs.Prelude.{◌≡◌, length};

use sha256::bytes;
use state_files::arguments::LogArguments;
use state_files::{arguments, file, lock, report, setup};
use std::env::Env;
use std::fs::{File, Files};
use std::io;
use std::process::Process;

// The memory of the store, zero: the largest that fits a stack of 8 MiB with the rest. The `ensures` gives only the length, so that no
// proof computes with the list.
fn zeros() -> [u8; 4194304]
    ensures { 4194304 ≡ length result }
{
    [0; 4194304]
}

fn main(rt: HostRuntime) {
    if arguments::is(&rt, 1, b"new") {
        run(&rt, rt.process(), true, 2);
    } else {
        run(&rt, rt.process(), false, 1);
    }
}

// Serves the log that the arguments name from the folder's on.
fn run<R>(rt: &R, own: Process, new: bool, at: usize)
where
    R: Env + Files<File = File> + Input + Print + Eprint + Alloc,
{
    let first = at % 3;
    let mut text = [0u8; 4096];
    let n = arguments::lay(rt, first, &mut text);
    let mut keys = [0u8; 3640];
    let u = arguments::load(rt, first + 4, &mut keys);
    let users = bytes::front(&keys, u);
    let d = arguments::read_settings(rt, first + 1, first + 2, first + 3);
    if arguments::count(rt) != first + 5 || !arguments::fit(d, d.servers, users) {
        report::line(rt, "usage: desk [new] FOLDER N OWN NAME USERS");
        report::line(
            rt,
            "N from 2 to 16, OWN from 1 to N, NAME of 1 to 16 bytes, USERS a file of 1 to 64 public keys",
        );
        return;
    }
    serve_locked(rt, own, d, new, bytes::front(&text, n), users);
}

// Serves the log of a folder while its lock is held.
fn serve_locked<R>(rt: &R, own: Process, d: LogArguments, new: bool, folder: &[u8], users: &[u8])
where
    R: Files<File = File> + Input + Print + Eprint + Alloc,
{
    if !lock::take(rt, own, folder) {
        return;
    }
    let name = d.log;
    let mark = setup::hash((d.servers % 256) as u8, (d.own % 256) as u8, name, users);
    if !new || log::begin(rt, folder, mark) {
        serve_folder(rt, d, mark, folder, users);
    }
    lock::give_back(rt, folder);
}

// Opens the log of a folder. What a killed process left is first brought to the device, since answers speak of it. Where that cannot be
// done, it says so.
fn open<R: Files<File = File> + Eprint + Alloc>(rt: &R, folder: &[u8]) -> Option<File> {
    let file = match file::open_update(rt, folder, b"log") {
        Ok(file) => file,
        Err(error) => {
            report::failure(
                rt,
                "the folder has no log that can be opened; `new` begins one",
                error,
            );
            return None;
        }
    };
    match file::sync(rt, &file, folder) {
        Ok(()) => Some(file),
        Err(error) => {
            report::failure(rt, "the log cannot be written", error);
            None
        }
    }
}

// Serves the log of a folder.
fn serve_folder<R>(rt: &R, d: LogArguments, mark: [u8; 32], folder: &[u8], users: &[u8])
where
    R: Files<File = File> + Input + Print + Eprint + Alloc,
{
    let Some(file) = open(rt, folder) else {
        return;
    };
    let mut space = zeros();
    let store: &mut [u8] = &mut space;
    let mut slot = [0u8; 167];
    let s: &mut [u8] = &mut slot;
    if log::load(rt, &file, mark, s, store)
        && serve::takes(rt, d, users, store, s)
        && log::replace_older(rt, &file, s, store)
    {
        serve::turns(rt, &file, d, users, store, s);
    }
}
