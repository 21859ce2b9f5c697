// Files of a folder by name. No name here is longer than 64 bytes, and a folder's is at most 4,000; both are UTF-8 text.
ghost use Rattle.std.specs.Prelude.{◌≡◌, ◌≤◌, length, take};
ghost use Rattle.state_files.specs.Slot.{toℕ};
ghost use Rattle.state_files.specs.Path.{path_length, path_laid};

use sha256::bytes;
use std::fs::{File, Files, OpenOptions, Permissions};
use std::io::{ErrorKind, Read, Seek, SeekFrom, Write};
use std::os::unix::fs::{FileExt, OpenOptionsExt, PermissionsExt};
use std::{fs, io, str};

const MOST: usize = 4000;

// How a file is opened: for reading; for reading and writing; newly made, for writing; for writing, made or emptied.
#[derive(Clone, Copy)]
enum Way {
    Read,
    Update,
    Create,
    Overwrite,
}

// Lays the path of a file in a folder at the front of out, and answers its length: 0, which names no file, where a name is too long.
fn path(folder: &[u8], name: &[u8], out: &mut [u8]) -> usize
    ensures { (result ≡ path_length folder.now name.now out.old)
        × (out.new ≡ path_laid folder.now name.now out.old) }
{
    if MOST < folder.len() {
        return 0;
    }
    if 64 < name.len() {
        return 0;
    }
    if out.len() < folder.len() + 1 + name.len() {
        return 0;
    }
    bytes::put2(out, 0, folder, b"/");
    bytes::put(out, folder.len() + 1, name);
    folder.len() + 1 + name.len()
}

// A path as text: one that is not UTF-8 names no file.
pub fn text(path: &[u8]) -> io::Result<&str> {
    match str::from_utf8(path) {
        Ok(text) => Ok(text),
        Err(_) => Err(io::Error::from(ErrorKind::InvalidFilename)),
    }
}

// The options of a way. A file that is made or emptied is one that nobody else may read, from its first moment on.
fn options(way: Way) -> OpenOptions {
    let mut options = OpenOptions::new();
    match way {
        Way::Read => {
            options.read(true);
        }
        Way::Update => {
            options.read(true).write(true);
        }
        Way::Create => {
            options.write(true).create_new(true);
        }
        Way::Overwrite => {
            options.write(true).create(true).truncate(true).mode(0o600);
        }
    }
    options
}

// Opens a file of a folder.
fn open(rt: &impl Files<File = File>, way: Way, folder: &[u8], name: &[u8]) -> io::Result<File> {
    let mut out = [0u8; 4096];
    let n = path(folder, name, &mut out);
    options(way).open(rt, text(bytes::front(&out, n))?)
}

// Opens the file of a path for reading.
pub fn open_path(rt: &impl Files<File = File>, path: &[u8]) -> io::Result<File> {
    fs::open(rt, text(path)?)
}

// Opens a file for reading.
pub fn open_read(rt: &impl Files<File = File>, folder: &[u8], name: &[u8]) -> io::Result<File> {
    open(rt, Way::Read, folder, name)
}

// Opens a file for reading and writing.
pub fn open_update(rt: &impl Files<File = File>, folder: &[u8], name: &[u8]) -> io::Result<File> {
    open(rt, Way::Update, folder, name)
}

// Makes a file, and opens it for writing; an error, as where the name is taken.
pub fn create(rt: &impl Files<File = File>, folder: &[u8], name: &[u8]) -> io::Result<File> {
    open(rt, Way::Create, folder, name)
}

// Makes a file that nobody else may read, or empties one, and opens it for writing.
fn open_private(rt: &impl Files<File = File>, folder: &[u8], name: &[u8]) -> io::Result<File> {
    let file = open(rt, Way::Overwrite, folder, name)?;
    file.set_permissions(Permissions::from_mode(0o600))?;
    Ok(file)
}

// Removes a file's name.
pub fn remove(rt: &impl Files, folder: &[u8], name: &[u8]) -> io::Result<()> {
    let mut out = [0u8; 4096];
    let n = path(folder, name, &mut out);
    fs::remove_file(rt, text(bytes::front(&out, n))?)
}

// Gives a file another name; another file of that name loses it.
pub fn rename(rt: &impl Files, folder: &[u8], from: &[u8], to: &[u8]) -> io::Result<()> {
    let mut old = [0u8; 4096];
    let mut new = [0u8; 4096];
    let n = path(folder, from, &mut old);
    let m = path(folder, to, &mut new);
    fs::rename(
        rt,
        text(bytes::front(&old, n))?,
        text(bytes::front(&new, m))?,
    )
}

// Whether no file has this name; not where that cannot be told.
pub fn is_missing(rt: &impl Files<File = File>, folder: &[u8], name: &[u8]) -> bool {
    match open_read(rt, folder, name) {
        Ok(_) => false,
        Err(error) => error.kind() == ErrorKind::NotFound,
    }
}

// Reads to the front of a buffer until it is full, the input ends or a read fails, and answers how many bytes came.
pub fn read_full(input: &mut impl Read, into: &mut [u8]) -> usize
    ensures { (result ≤ length into.new) × (result ≡ length (take result into.new)) }
{
    let mut done = 0;
    while done < into.len() {
        match input.read(&mut into[done..]) {
            Ok(n) if n > 0 => done += n,
            _ => break,
        }
    }
    done
}

// Reads a file's first bytes to the front of a buffer, and answers how many came: none where it is missing.
pub fn load(rt: &impl Files<File = File>, folder: &[u8], name: &[u8], into: &mut [u8]) -> usize {
    match open_read(rt, folder, name) {
        Ok(mut file) => read_full(&mut file, into),
        Err(_) => 0,
    }
}

// A number that is not below 0, and 0 for one that is.
pub fn or_zero(n: i64) -> u64
    ensures { result ≡ toℕ n }
{
    if n > 0 {
        return n as u64;
    }
    0
}

// How many bytes an open file has; 0 for one that has no end. Its position is there then.
pub fn size(mut file: &File) -> u64 {
    file.seek(SeekFrom::End(0)).unwrap_or(0)
}

// Reads an open file from a place on to the front of a buffer, until it is full or the file ends, and answers how many bytes came.
pub fn read_from(mut file: &File, at: u32, into: &mut [u8]) -> usize
    ensures { (result ≤ length into.new) × (result ≡ length (take result into.new)) }
{
    let _ = file.seek(SeekFrom::Start(u64::from(at)));
    read_full(&mut file, into)
}

// Writes bytes at a place of an open file, all of them or an error.
pub fn write_at(file: &File, content: &[u8], at: u32) -> io::Result<()> {
    file.write_all_at(content, u64::from(at))
}

// Waits until the names in a folder are on their device.
pub fn sync_folder(rt: &impl Files<File = File>, folder: &[u8]) -> io::Result<()> {
    open_path(rt, folder)?.sync_all()
}

// Waits until an open file and the names in its folder are on their device.
pub fn sync(rt: &impl Files<File = File>, file: &File, folder: &[u8]) -> io::Result<()> {
    file.sync_all()?;
    sync_folder(rt, folder)
}

// Makes a file with this content, or replaces one, all or nothing: written under the name `part`, and named once it is on its device.
pub fn replace(
    rt: &impl Files<File = File>,
    folder: &[u8],
    part: &[u8],
    name: &[u8],
    content: &[u8],
) -> io::Result<()> {
    let mut file = open_private(rt, folder, part)?;
    file.write_all(content)?;
    file.sync_all()?;
    rename(rt, folder, part, name)?;
    sync_folder(rt, folder)
}
