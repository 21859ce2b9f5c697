// RFC 8554, section 5.3: the tree in a lent buffer, node r at 32 * (r - 1).
ghost use Rattle.std.specs.Prelude.{◌≡◌, suc, ◌+◌, ◌*◌, ◌^◌, ◌≤◌, ◌<◌, length};
ghost use Rattle.sha256.specs.Bytes.{written};
ghost use Rattle.sha256.specs.Hash.{bytes as bytes_of};
ghost use Rattle.lms.specs.Tree.{leaf as leaf_of, inner as inner_of, node_over, tree_bytes, tree_size};
ghost use Rattle.lms.specs.Signature.{node_at};

use crate::onetime;
use crate::place::Place;
use crate::sets::Rows;
use sha256::bytes;

// A leaf, over a one-time key.
pub fn leaf(node: Place, key: [u8; 32]) -> [u8; 32]
    ensures { result ≡ leaf_of node.id node.number key }
{
    sha256::hash2(&node.prefix(0x8282), &key)
}

// An inner node, over the two nodes below it.
pub fn inner(node: Place, left: &[u8], right: &[u8]) -> [u8; 32]
    ensures { result ≡ inner_of node.id node.number left.now right.now }
{
    sha256::hash3(&node.prefix(0x8383), left, right)
}

// The bytes of node r in a tree.
pub fn node_at(tree: &[u8], r: usize) -> &[u8]
    requires { (0 < r) × (r ≤ 2 ^ 32) }
    ensures { result.now ≡ node_at tree.now r }
{
    bytes::front(bytes::from(tree, 32 * (r - 1)), 32)
}

// Node r of a tree whose nodes past r are in place. A tree of height 25 has fewer than 2^26 nodes.
fn node(rows: &Rows, id: [u8; 16], seed: [u32; 8], r: usize, tree: &[u8]) -> [u8; 32]
    requires { (0 < r) × ((r < 2 ^ suc rows.now.lms.h) × (r < 67108864)) }
    ensures { result ≡ node_over rows.now.ots rows.now.lms.h id (bytes_of seed) r
        (node_at tree.now (2 * r)) (node_at tree.now (2 * r + 1)) }
{
    let first = 1 << rows.lms.h;
    let node = Place {
        id,
        number: r as u32,
    };
    if r < first {
        return inner(node, node_at(tree, 2 * r), node_at(tree, 2 * r + 1));
    }
    let key = Place {
        id,
        number: (r - first) as u32,
    };
    leaf(node, onetime::public_hash(rows, key, seed))
}

// All nodes of a tree, from the last leaf to the root; what follows them in the buffer stays.
pub fn grow(rows: &Rows, id: [u8; 16], seed: [u32; 8], tree: &mut [u8])
    requires { tree_size rows.now.lms.h ≤ length tree.old }
    ensures { tree.new ≡ written tree.old 0 (tree_bytes rows.now.ots rows.now.lms.h id (bytes_of seed)) }
{
    for r in (1..2 << rows.lms.h).rev() {
        let x = node(rows, id, seed, r, tree);
        bytes::put(tree, 32 * (r - 1), &x);
    }
}
