// The Monte Carlo test of NIST's CAVP: 100 checkpoints of 1,000 hashes each, every checkpoint the seed of the next.
use crate::report;
use std::io;

pub fn run(rt: &impl Print) -> io::Result<()> {
    let mut seed = [0u8; 32];
    lines::hex::decode(
        b"6d1e72ad03ddeb5de891e572e2396f8da015d899ef0e79503152d6010a3fe691",
        &mut seed,
    );
    let mut i = 0;
    while i < 100 {
        let next = checkpoint(seed);
        report::text(rt, b"md")?;
        report::number(rt, i)?;
        report::digest(rt, next)?;
        seed = next;
        i += 1;
    }
    Ok(())
}

// From a = b = c = seed, 1,000 times the hash of a, b and c joined takes the place of the oldest of the three.
fn checkpoint(seed: [u8; 32]) -> [u8; 32] {
    let mut a = seed;
    let mut b = seed;
    let mut c = seed;
    let mut i = 0usize;
    while i < 1000 {
        let next = sha256::hash3(&a, &b, &c);
        a = b;
        b = c;
        c = next;
        i += 1;
    }
    c
}
