// RFC 8554, section 5.4.1: a signature laid straight into its place, its path taken from the lent tree.
ghost use Rattle.std.specs.Prelude.{◌≡◌, ◌+◌, ◌*◌, ◌^◌, ◌≤◌, ◌<◌, length};
ghost use Rattle.sha256.specs.Bytes.{written};
ghost use Rattle.sha256.specs.Hash.{bytes as bytes_of};
ghost use Rattle.lms.specs.Types.{cat};
ghost use Rattle.lms.specs.Ots.{opened};
ghost use Rattle.lms.specs.Tree.{tree_size};
ghost use Rattle.lms.specs.Signature.{path, signature as signature_of, signature_size};

use crate::onetime;
use crate::place::Place;
use crate::sets::Rows;
use crate::tree::node_at;
use sha256::bytes;

// y[0] || .. || y[p-1] over the text's hash t, written to place `at`.
fn write_chains(rows: &Rows, key: Place, seed: [u32; 8], t: [u8; 32], place: &mut [u8], at: usize)
    requires { at + 32 * rows.now.ots.p ≤ length place.old }
    ensures { place.new
        ≡ written place.old at (cat (opened rows.now.ots key.id (bytes_of seed) key.number t) rows.now.ots.p) }
{
    let p = rows.ots.p;
    let d = onetime::summed(rows, t);
    for i in 0..p {
        let y = onetime::opened(key, seed, i as u16, rows.coef(&d, i));
        bytes::put(place, at + 32 * i, &y);
    }
}

// The path of leaf q of a tree, written to place `at`.
fn write_path(rows: &Rows, tree: &[u8], q: u32, place: &mut [u8], at: usize)
    requires { (q < 2 ^ rows.now.lms.h) × ((tree_size rows.now.lms.h ≤ length tree.now)
        × (at + 32 * rows.now.lms.h ≤ length place.old)) }
    ensures { place.new ≡ written place.old at (path rows.now.lms.h tree.now q) }
{
    let h = rows.lms.h;
    let leaf = (1 << h) + (q as usize);
    for i in 0..h {
        bytes::put(place, at + 32 * i, node_at(tree, (leaf >> i) ^ 1));
    }
}

// The signature of a text with a key, written to the front of place.
pub fn signature(
    rows: &Rows,
    key: Place,
    seed: [u32; 8],
    c: [u8; 32],
    text: &[u8],
    tree: &[u8],
    place: &mut [u8],
)
    requires { (key.number < 2 ^ rows.now.lms.h) × ((tree_size rows.now.lms.h ≤ length tree.now)
        × (signature_size rows.now.ots rows.now.lms ≤ length place.old)) }
    ensures { place.new ≡ written place.old 0
        (signature_of rows.now.ots rows.now.lms key.id (bytes_of seed) key.number c text.now tree.now) }
{
    let end = 40 + 32 * rows.ots.p;
    let t = onetime::text_hash(key, &c, text);
    bytes::put(place, 0, &bytes::be4(key.number));
    bytes::put(place, 4, &bytes::be4(rows.ots.otstype));
    bytes::put(place, 8, &c);
    write_chains(rows, key, seed, t, place, 40);
    bytes::put(place, end, &bytes::be4(rows.lms.lmstype));
    write_path(rows, tree, key.number, place, end + 4);
}
