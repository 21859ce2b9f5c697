// Hashes: of a message, of an entry's leaf, of a block of leaves.
ghost use Rattle.std.specs.Prelude.{◌≡◌};
ghost use Rattle.sha256.specs.Bytes.{written};
ghost use Rattle.sha256.specs.Hash.{sha256};
ghost use Rattle.tree.specs.Expr.{leaf, entry_text, value};
ghost use Rattle.kozbrax.specs.Hash.{hash_code};
ghost use Rattle.kozbrax.specs.Tree.{leaves_fit, digest_code, digest_left};

use sha256::bytes;
use tree::digest;

// Puts a hash into the first 32 bytes of out: 0, or 21 where out is shorter.
fn give(hash: [u8; 32], out: &mut [u8]) -> u32
    ensures { (result ≡ hash_code out.old) × (out.new ≡ written out.old 0 hash) }
{
    bytes::put(out, 0, &hash);
    if out.len() < 32 { 21 } else { 0 }
}

// The SHA-256 of the message goes to the first 32 bytes of out: 0, or 21 where out is shorter.
#[unsafe(no_mangle)]
pub extern "C" fn kozbrax_sha256(message: &[u8], out: &mut [u8]) -> u32
    ensures { (result ≡ hash_code out.old)
        × (out.new ≡ written out.old 0 (sha256 message.now)) }
{
    give(sha256::hash(message), out)
}

// The leaf of an entry goes to the first 32 bytes of out: 0, or 21 where out is shorter.
#[unsafe(no_mangle)]
pub extern "C" fn kozbrax_leaf(author: u16, entry: &[u8], out: &mut [u8]) -> u32
    ensures { (result ≡ hash_code out.old)
        × (out.new ≡ written out.old 0 (value (leaf (entry_text author entry.now)))) }
{
    give(digest::leaf(author, entry), out)
}

// Whether leaves are 1 to 1,048,576 hashes of 32 bytes.
fn leaves_fit(leaves: &[u8]) -> bool
    ensures { result ≡ leaves_fit leaves.now }
{
    let n = leaves.len() / 32;
    (leaves.len() % 32 == 0) & ((1 <= n) & (n <= 1048576))
}

// The digest of leaves of 32 bytes each goes to the first 32 bytes of out: 0, 21 where out is shorter, 24 where the leaves are not
// 1 to 1,048,576.
#[unsafe(no_mangle)]
pub extern "C" fn kozbrax_digest(leaves: &[u8], out: &mut [u8]) -> u32
    ensures { (result ≡ digest_code leaves.now out.old)
        × (out.new ≡ digest_left leaves.now out.old) }
{
    if out.len() < 32 {
        return 21;
    }
    if !leaves_fit(leaves) {
        return 24;
    }
    let count = (leaves.len() / 32) as u32;
    give(digest::block_digest(leaves, count), out)
}
