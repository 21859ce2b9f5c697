// What users 1 and 2 send: their entries, digests and requests.
use programs::key;
use sha256::bytes;
use tree::{digest, message};

// The entry of position p, which is at most 5.
fn entry(p: u32) -> [u8; 8] {
    let n = b'0' + (p % 10) as u8;
    [1, b'e', b'n', b't', b'r', b'y', b' ', n]
}

// The leaf of position p: users 1 and 2 write in turn.
fn leaf(p: u32) -> [u8; 32] {
    let e = entry(p);
    digest::leaf((2 - p % 2) as u16, &e)
}

// The leaves of positions 1 to 5.
fn leaves() -> [u8; 160] {
    let mut all = [0u8; 160];
    bytes::put(&mut all, 0, &leaf(1));
    bytes::put(&mut all, 32, &leaf(2));
    bytes::put(&mut all, 64, &leaf(3));
    bytes::put(&mut all, 96, &leaf(4));
    bytes::put(&mut all, 128, &leaf(5));
    all
}

// The digest of the first p entries.
fn digest_of(p: u32) -> [u8; 32] {
    let all = leaves();
    digest::block_digest(&all, p)
}

// The hash of node (p, l), where it is full: of the last 2^l of the first p entries.
fn node_of(p: u32, l: u8) -> [u8; 32] {
    let all = leaves();
    let n = 1 << (l % 32);
    if p < n {
        return [0u8; 32];
    }
    digest::block_digest(bytes::from(&all, 32 * (p - n) as usize), n)
}

// Writes the request that a line says to the front of q, and answers its length.
pub fn request(f: [u32; 16], keys: &[u8], q: &mut [u8]) -> u32 {
    let body = f[6];
    let d = f[7];
    if body == 1 {
        put(f, &digest_of(d), q);
        return 58;
    }
    if body == 2 {
        put(f, &entry(d), q);
        return 34;
    }
    if body == 3 {
        put(f, &node_of(f[4], (f[5] % 256) as u8), q);
        return 58;
    }
    if body == 4 {
        put(f, &signed(f, keys), q);
        return 2566;
    }
    put(f, &[7u8; 2540], q);
    26
}

// Writes the request with this body.
fn put(f: [u32; 16], body: &[u8], q: &mut [u8]) {
    let kind = (f[2] % 256) as u8;
    let author = (f[3] % 65536) as u16;
    message::put_request(q, kind, key::LOG, author, f[4], (f[5] % 256) as u8, body);
}

// The body of a Commit: the digest, and a key's signature of that number, which also makes up the randomizer.
fn signed(f: [u32; 16], keys: &[u8]) -> [u8; 2540] {
    let name = (f[8] % 256) as u8;
    let digest = digest_of(f[7]);
    let text = message::signed_text(key::LOG, f[4], digest);
    let mut body = [0u8; 2540];
    bytes::put(&mut body, 0, &digest);
    let randomizer = [(f[9] % 256) as u8; 32];
    let tree = key::tree_of(keys, name);
    lms::sign(
        6,
        3,
        [name; 32],
        [name; 16],
        f[9],
        randomizer,
        &text,
        tree,
        &mut body[32..],
    );
    body
}
