// A user of a log, one command a run, its key and state in a folder: docs/OPERATING.md. A request leaves once the state is on the folder's
// device.
#![tactic(auto)]

mod advice;
mod board;
mod call;
mod command;
mod key;
mod links;
mod show;
mod step;

ghost use Rattle.std.specs.Prelude.{◌≡◌, length};

use links::Links;
use programs::print;
use sha256::bytes;
use state_files::arguments::LogArguments;
use state_files::{arguments, file, lock, report, setup, user_file};
use std::env::Env;
use std::fs::{File, Files};
use std::io;
use std::process::Process;
use std::random::RandomSource;

// The user's memory, zero. The `ensures` gives only the length, so that no proof computes with the list.
fn memory() -> [u8; 84134]
    ensures { 84134 ≡ length result }
{
    [0; 84134]
}

// Whether argument 7 is a command that takes argument 8, or one that takes none.
fn is_command(rt: &impl Env, with_argument: bool) -> bool {
    if with_argument {
        return arguments::is(rt, 7, b"write")
            || arguments::is(rt, 7, b"strike")
            || arguments::is(rt, 7, b"read")
            || arguments::is(rt, 7, b"settled");
    }
    arguments::is(rt, 7, b"update")
        || arguments::is(rt, 7, b"give-up")
        || arguments::is(rt, 7, b"board")
}

fn usage(rt: &impl Eprint) {
    report::line(rt, "usage: controller FOLDER key");
    report::line(
        rt,
        "       controller FOLDER N OWN NAME USERS LINKS update|give-up|board",
    );
    report::line(
        rt,
        "       controller FOLDER N OWN NAME USERS LINKS write TEXT|strike POSITION|read POSITION|settled POSITION",
    );
    report::line(
        rt,
        "N from 2 to 16, OWN a user of the file USERS, NAME of 1 to 16 bytes, LINKS what the links' names begin with",
    );
}

fn main(rt: HostRuntime) -> io::Result<()> {
    let mut text = [0u8; 4096];
    let n = arguments::lay(&rt, 1, &mut text);
    let folder = bytes::front(&text, n);
    if arguments::count(&rt) == 3 && arguments::is(&rt, 2, b"key") {
        make_key(&rt, rt.process(), folder)
    } else {
        use_log(&rt, rt.process(), folder)
    }
}

// Runs a command on a log, where the arguments are such a command's, while the folder's lock is held.
fn use_log<R>(rt: &R, own: Process, folder: &[u8]) -> io::Result<()>
where
    R: Env + Files<File = File> + Print + Eprint + Alloc,
{
    let mut public = [0u8; 3640];
    let u = arguments::load(rt, 5, &mut public);
    let users = bytes::front(&public, u);
    let g = arguments::read_settings(rt, 2, 3, 4);
    let count = arguments::count(rt);
    let known = (count == 8 && is_command(rt, false)) || (count == 9 && is_command(rt, true));
    if !known || !arguments::fit(g, (u / 56 % 65) as u32, users) {
        usage(rt);
        return Ok(());
    }
    if !lock::take(rt, own, folder) {
        return Ok(());
    }
    let done = run(rt, g, folder, users);
    lock::give_back(rt, folder);
    done
}

// Makes the key of a folder while its lock is held.
fn make_key<R>(rt: &R, own: Process, folder: &[u8]) -> io::Result<()>
where
    R: RandomSource + Files<File = File> + Print + Eprint + Alloc,
{
    if !lock::take(rt, own, folder) {
        return Ok(());
    }
    let made = key::make(rt, folder);
    lock::give_back(rt, folder);
    if made {
        print::text(rt, b"made: key, public, state\n")?;
    }
    Ok(())
}

// Runs the command with the key and the state of a folder.
fn run<R>(rt: &R, g: LogArguments, folder: &[u8], users: &[u8]) -> io::Result<()>
where
    R: Env + Files<File = File> + Print + Eprint + Alloc,
{
    let mut space = key::memory();
    let keys: &mut [u8] = &mut space;
    if !key::load(rt, folder, keys) {
        return Ok(());
    }
    match open(rt, folder) {
        Some(file) => run_state(rt, g, file, users, keys),
        None => Ok(()),
    }
}

// Opens the state of a folder. What a killed process left is first brought to the device, since requests speak of it. Where that cannot be
// done, it says so.
fn open<R: Files<File = File> + Eprint + Alloc>(rt: &R, folder: &[u8]) -> Option<File> {
    let file = match file::open_update(rt, folder, b"state") {
        Ok(file) => file,
        Err(error) => {
            report::failure(
                rt,
                "the state cannot be opened; where it is lost, the key must not sign any more",
                error,
            );
            return None;
        }
    };
    match file::sync(rt, &file, folder) {
        Ok(()) => Some(file),
        Err(error) => {
            report::failure(rt, "the state cannot be written", error);
            None
        }
    }
}

// Runs the command on an open state.
fn run_state<R>(rt: &R, g: LogArguments, file: File, users: &[u8], key: &[u8]) -> io::Result<()>
where
    R: Env + Files<File = File> + Print + Eprint + Alloc,
{
    let mut space = memory();
    let m: &mut [u8] = &mut space;
    step::lay_settings(g, m);
    step::lay_keys(key, users, m);
    let mut links = links::keep_file(file);
    if !load(rt, g, &links, users, m) {
        return Ok(());
    }
    command::run(rt, &mut links, m)
}

// Loads the state that counts. Whether it is there.
fn load_state(rt: &impl Eprint, file: &File, memory: &mut [u8]) -> bool {
    let mut state = [0u8; 4324];
    if !user_file::load(rt, file, &mut state) {
        report::line(rt, "the state is not whole: the key must not sign any more");
        return false;
    }
    bytes::put(memory, 0, &state);
    bytes::put(memory, step::SAVED, &state);
    true
}

// Loads the state that counts. Whether it is there and of this log.
fn load<R: Eprint + Alloc>(
    rt: &R,
    g: LogArguments,
    links: &Links,
    users: &[u8],
    memory: &mut [u8],
) -> bool {
    if !load_state(rt, links::file(links), memory) {
        return false;
    }
    let name = g.log;
    let mark = setup::hash((g.servers % 256) as u8, (g.own % 256) as u8, name, users);
    if !bind(rt, mark, memory) {
        return false;
    }
    match call::replace_older(links, memory) {
        Ok(()) => true,
        Err(error) => {
            report::failure(rt, "the state cannot be written", error);
            false
        }
    }
}

// Binds the state to a setup where nothing is accepted or signed yet. Whether it is of this setup then.
fn bind(rt: &impl Eprint, mark: [u8; 32], memory: &mut [u8]) -> bool {
    let none = [0u8; 46];
    if bytes::same(
        bytes::front(bytes::from(memory, user_file::KEPT), 46),
        &none,
    ) {
        bytes::put(memory, user_file::SETUP, &mark);
        return true;
    }
    if bytes::same(setup_of(memory), &mark) {
        return true;
    }
    report::line(
        rt,
        "the state is of another N, number, name or list of users",
    );
    false
}

// The setup that a state has.
fn setup_of(memory: &[u8]) -> &[u8] {
    bytes::front(bytes::from(memory, user_file::SETUP), 32)
}
