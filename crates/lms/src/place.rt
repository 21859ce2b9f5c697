// RFC 8554, sections 4 and 5.3: what every hashed string begins with.
ghost use Rattle.std.specs.Prelude.{◌≡◌, take};
ghost use Rattle.sha256.specs.Hash.{bytes as bytes_of};
ghost use Rattle.lms.specs.Types.{prefix as prefix_of};

use sha256::{bytes, link};

// A place in a key's tree: the tree's I, and the number q of a one-time key or the number r of a node.
#[derive(Clone, Copy)]
pub struct Place {
    pub id: [u8; 16],
    pub number: u32,
}

impl Place {
    // The 22 bytes before a hashed string's contents.
    pub fn prefix(self, d: u16) -> [u8; 22]
        ensures { result ≡ prefix_of self.id self.number d }
    {
        let mut s = [0u8; 22];
        bytes::put(&mut s, 0, &self.id);
        bytes::put(&mut s, 16, &bytes::be4(self.number));
        bytes::put(&mut s, 20, &bytes::be2(d));
        s
    }

    // The same bytes as words, for the links of chain i.
    pub fn prefix_words(self, i: u16) -> [u32; 6]
        ensures { take 22 (bytes_of result) ≡ prefix_of self.id self.number i }
    {
        let w = link::words(&self.id);
        [w[0], w[1], w[2], w[3], self.number, u32::from(i) * 65536]
    }
}
