// The functions of `user_write::requests` as another crate calls them: the write of position 4 with 4 servers. Its labels, by document
// 01's formula, are 7, 8 and 9, so that servers 3, 4 and 1 own its path.
use tree::bytes;
use tree::setup::Config;
use user_write::call::OwnKey;
use user_write::requests;

const KINDS: [u8; 7] = [5, 5, 5, 6, 7, 7, 8];

const LEVELS: [u8; 7] = [0, 1, 2, 0, 1, 2, 2];

const SERVERS: [u8; 7] = [3, 4, 1, 3, 4, 1, 1];

fn config() -> Config {
    Config {
        servers: 4,
        own: 2,
        log: [9; 16],
    }
}

// A path whose hash of level l is 32 bytes l + 1, for the levels 0 to 2.
fn path() -> [u8; 672] {
    let mut path = [0u8; 672];
    for i in 0..96usize {
        path[i] = (i / 32 + 1) as u8;
    }
    path
}

// The header that a request of user 2 for position 4 has by document 01: its mark, kind, log, author, position and level.
fn header_of(kind: u8, level: u8) -> [u8; 26] {
    [
        b'K', b'R', kind, 9, 9, 9, 9, 9, 9, 9, 9, 9, 9, 9, 9, 9, 9, 9, 9, 0, 2, 0, 0, 0, 4, level,
    ]
}

// Whether the buffer begins with a header and this body, and has a zero behind them.
fn is_laid(request: &[u8], kind: u8, level: u8, body: &[u8]) -> bool {
    let rest = bytes::from(request, 26);
    request.starts_with(&header_of(kind, level))
        & rest.starts_with(body)
        & (bytes::from(rest, body.len()).first() == Some(&0))
}

#[test]
fn what_each_request_asks_for(rt: HostRuntime) {
    assert_eq!(rt; requests::commit_number(1), 2);
    assert_eq!(rt; requests::commit_number(4), 6);
    assert_eq!(rt; requests::commit_number(6), 6);
    for j in 0..7u8 {
        let w = requests::want(4, 4, j);
        assert_eq!(rt; w.kind, KINDS[j as usize], "kind of {j}");
        assert_eq!(rt; w.level, LEVELS[j as usize], "level of {j}");
        assert_eq!(rt; w.server, SERVERS[j as usize], "server of {j}");
        assert_eq!(rt; w.position, 4, "position of {j}");
    }
}

// Reserves lay the digest, the PutOperation the entry, and each PutNode the hash of its level.
#[test]
fn reserves_and_puts(rt: HostRuntime) {
    let entry = [1u8, 75, 105, 108, 110];
    let bodies = [
        &[3u8; 32][..],
        &[3; 32],
        &[3; 32],
        &entry,
        &[2; 32],
        &[3; 32],
    ];
    for j in 0..6u8 {
        let n = j as usize;
        assert!(rt; n < requests::commit_number(4));
        let mut request = [0u8; 64];
        let step = requests::next(config(), 4, j, &path(), &entry, &mut request);
        assert!(rt;
            is_laid(&request, KINDS[n], LEVELS[n], bodies[n]),
            "request {j}"
        );
        assert_eq!(rt; step.length as usize, 26 + bodies[n].len(), "length of {j}");
        assert_eq!(rt; step.server, SERVERS[n], "server of {j}");
    }
}

#[test]
fn a_request_with_a_body(rt: HostRuntime) {
    let entry = [1u8, 75, 105, 108, 110];
    let mut request = [0u8; 64];
    let step = requests::hand_out(config(), requests::want(4, 4, 3), &entry, &mut request);
    assert!(rt; is_laid(&request, 6, 0, &entry));
    assert_eq!(rt; step.length, 31);
    assert_eq!(rt; step.server, 3);
}

// A Commit's body: the digest, which is the path's last hash, and the signature.
fn committed(signature: &[u8; 2508]) -> [u8; 2540] {
    let mut body = [3u8; 2540];
    body[32..].copy_from_slice(signature);
    body
}

#[test]
fn the_commit_with_the_kept_signature(rt: HostRuntime) {
    let signature = [7u8; 2508];
    let mut request = [0u8; 2567];
    let step = requests::commit(config(), 4, 6, &path(), &signature, &mut request);
    assert!(rt; is_laid(&request, 8, 2, &committed(&signature)));
    assert_eq!(rt; step.length, 2566);
    assert_eq!(rt; step.server, 1);
}

// The text that is signed for position 4 by document 01: its mark, the log, the position and the digest.
fn signed_text() -> [u8; 54] {
    let mut text = [3u8; 54];
    text[..22].copy_from_slice(&[
        b'K', b'D', 9, 9, 9, 9, 9, 9, 9, 9, 9, 9, 9, 9, 9, 9, 9, 9, 0, 0, 0, 4,
    ]);
    text
}

// What is kept is the signature that was handed out, and the key's check takes it, with its number.
#[test]
fn the_commit_that_is_signed(rt: HostRuntime) {
    let mut tree = [0u8; 65504];
    let mut public = [0u8; 56];
    assert_eq!(rt; lms::generate(6, 3, [3; 32], [2; 16], &mut tree), 0);
    assert_eq!(rt; lms::public_key(6, 3, [2; 16], &tree, &mut public), 0);
    let key = OwnKey {
        id: &[2; 16],
        seed: &[3; 32],
        tree: &tree,
    };
    let mut signature = [0u8; 2508];
    let mut request = [0u8; 2567];
    let step = requests::sign(
        config(),
        4,
        6,
        5,
        &key,
        [4; 32],
        &path(),
        &mut signature,
        &mut request,
    );
    assert!(rt; is_laid(&request, 8, 2, &committed(&signature)));
    assert_eq!(rt; step.length, 2566);
    assert_eq!(rt; step.server, 1);
    assert_eq!(rt;
        lms::check(6, 3, &public, &signed_text(), &signature),
        Some(5)
    );
}
