// The nodes of a cover.
ghost use Rattle.std.specs.Prelude.{◌≡◌};
ghost use Rattle.tree.specs.Cover.{cover as cover_of};
ghost use Rattle.sha256.specs.Bytes.{written};
ghost use Rattle.kozbrax.specs.Tree.{nodes_bytes, cover_asked, cover_given, cover_left};

use crate::NONE;
use sha256::bytes;
use tree::cover;

// Whether the cover from v to w may be asked for and its nodes have room. They are counted where the ends are in range alone.
fn asked(v: u32, w: u32, nodes: &[u8]) -> bool
    ensures { result ≡ cover_asked v w nodes.now }
{
    let in_range = (v.max(1) <= w) & (w <= 1048576);
    in_range && 5 * cover::cover_count(v, w) <= nodes.len()
}

// Writes the nodes of the cover from v to w, 5 bytes each.
fn write_nodes(v: u32, w: u32, nodes: &mut [u8])
    ensures { nodes.new ≡ written nodes.old 0 (nodes_bytes (cover_of v w)) }
{
    let n = cover::cover_count(v, w);
    if nodes.len() / 5 < n {
        return;
    }
    for k in 0..n {
        let node = cover::cover_node(v, w, k);
        bytes::put2(nodes, 5 * k, &bytes::be4(node.position), &[node.level]);
    }
}

// The count of nodes of the cover from v to w, each written to `nodes` as p (4 bytes) and l (1); 4294967295, and nothing written,
// where v and w are out of range or the nodes do not fit.
#[unsafe(no_mangle)]
pub extern "C" fn kozbrax_cover(v: u32, w: u32, nodes: &mut [u8]) -> u32
    ensures { (result ≡ cover_given v w nodes.old) × (nodes.new ≡ cover_left v w nodes.old) }
{
    if !asked(v, w, nodes) {
        return NONE;
    }
    write_nodes(v, w, nodes);
    cover::cover_count(v, w) as u32
}
