// RFC 8554, sections 4.1 and 5.1: parameter sets by their types' numbers, and the lengths of what is made with them.
ghost use Rattle.std.specs.Prelude.{◌≡◌, ◌≤◌, ◌-◌, ◌^◌};
ghost use Rattle.lms.specs.Inner.{Row};
ghost use Rattle.lms.specs.Sets.{other_type, ots_of, lms_of};
ghost use Rattle.lms.specs.Ots.{coef as coef_of};
ghost use Rattle.lms.specs.Tree.{tree_size};
ghost use Rattle.lms.specs.Signature.{signature_size};

use crate::{Lms, Ots};
use sha256::bytes;

// A number other than t that is no type.
fn other_type(t: u32) -> u32
    ensures { result ≡ other_type t }
{
    if t == 0 { 4294967295 } else { 0 }
}

fn row(otstype: u32, w: usize, p: usize, ls: usize) -> Ots
    ensures { result ≡ record { otstype = otstype; w = w; p = p; ls = ls } }
{
    Ots { otstype, w, p, ls }
}

// The row of Table 1 with type t, or one of another type where there is none.
fn ots(t: u32) -> Ots
    ensures { result ≡ ots_of t }
{
    match t {
        1 => row(1, 1, 265, 7),
        2 => row(2, 2, 133, 6),
        3 => row(3, 4, 67, 4),
        4 => row(4, 8, 34, 0),
        _ => row(other_type(t), 4, 67, 4),
    }
}

// The row of Table 2 with type t, up to height 10, or one of another type where there is none.
fn lms(t: u32) -> Lms
    ensures { result ≡ lms_of t }
{
    match t {
        5 => Lms { lmstype: 5, h: 5 },
        6 => Lms { lmstype: 6, h: 10 },
        _ => Lms {
            lmstype: other_type(t),
            h: 10,
        },
    }
}

// A row of each table, and what the RFC says of each: no digit crosses a byte, the checksum fits two bytes, no tree is higher than 25.
#[derive(Clone, Copy)]
pub struct Rows {
    pub ots: Ots,
    pub lms: Lms,
    ghost is_row: { Row ots },
    ghost is_low: { lms.h ≤ 25 },
}

impl Rows {
    // The rows of two types, the LMS type first.
    pub fn of(lmstype: u32, otstype: u32) -> Rows
        ensures { (result.ots ≡ ots_of otstype) × (result.lms ≡ lms_of lmstype) }
    {
        Rows {
            ots: ots(otstype),
            lms: lms(lmstype),
        }
    }

    // The bytes of a tree.
    pub fn tree_size(&self) -> usize
        ensures { result ≡ tree_size self.now.lms.h }
    {
        32 * ((2 << self.lms.h) - 1)
    }

    // The bytes of a signature.
    pub fn signature_size(&self) -> usize
        ensures { result ≡ signature_size self.now.ots self.now.lms }
    {
        12 + 32 * (self.ots.p + 1) + 32 * self.lms.h
    }

    // 2^w - 1, the links of a whole chain.
    pub fn last(&self) -> usize
        ensures value { result ≡ 2 ^ self.now.ots.w - 1 }
        ensures most { result ≤ 255 }
    {
        (1 << self.ots.w) - 1
    }

    // The i-th value of w bits in s.
    pub fn coef(&self, s: &[u8], i: usize) -> usize
        requires { i ≤ 65535 }
        ensures value { result ≡ coef_of s.now i self.now.ots.w }
        ensures most { result ≤ 2 ^ self.now.ots.w - 1 }
    {
        let w = self.ots.w;
        let b = usize::from(bytes::byte_at(s, i * w / 8));
        (b >> (8 - (w * (i % (8 / w)) + w))) % (1 << w)
    }
}
