// The bytes of what a user keeps. These are functions and no methods or `From`, since `Kept` and `Progress` are another crate's types.
ghost use Rattle.std.specs.Prelude.{◌≡◌};
ghost use Rattle.c_layout.specs.User.{kept_bytes, progress_of, marks_fit, kept_of, kept_after};

use sha256::bytes;
use tree::digest;
use user::call::{Kept, Progress};

// How far the open write got, as the last four of these bytes stand for it.
fn progress_of(b: &[u8; 46]) -> Progress
    ensures { result ≡ progress_of b.now }
{
    Progress {
        levels: b[42],
        put: b[43] == 1,
        begun: b[44] == 1,
        done: b[45],
    }
}

// Whether no mark is above 1.
fn marks_fit(b: &[u8; 46]) -> bool
    ensures { result ≡ marks_fit b.now }
{
    (b[40] <= 1) & (b[41] <= 1) & (b[43] <= 1) & (b[44] <= 1)
}

// What is kept, as 46 bytes stand for it. Where the marks do not fit, its version is one that no log has, which 22 refuses.
pub fn kept_of(b: &[u8; 46]) -> Kept
    ensures { result ≡ kept_of b.now }
{
    let version = if marks_fit(b) {
        bytes::u32_at(b, 0)
    } else {
        u32::MAX
    };
    Kept {
        version,
        digest: digest::piece(bytes::from(b, 4), 0),
        number: bytes::u32_at(b, 36),
        opened: b[40] == 1,
        signed: b[41] == 1,
        progress: progress_of(b),
    }
}

// What is kept, as 46 bytes.
fn kept_bytes(k: Kept) -> [u8; 46]
    ensures { result ≡ kept_bytes k }
{
    let g = k.progress;
    let n = bytes::be4(k.number);
    let rest = [
        n[0],
        n[1],
        n[2],
        n[3],
        k.opened as u8,
        k.signed as u8,
        g.levels,
        g.put as u8,
        g.begun as u8,
        g.done,
    ];
    let mut out = [0u8; 46];
    bytes::put2(&mut out, 0, &bytes::be4(k.version), &k.digest);
    bytes::put(&mut out, 36, &rest);
    out
}

// Lays what is kept after a step, where the step's code is 0.
pub fn lay_kept(code: u8, k: Kept, kept: &mut [u8; 46])
    ensures { kept.new ≡ kept_after code k kept.old }
{
    if code == 0 {
        *kept = kept_bytes(k);
    }
}
