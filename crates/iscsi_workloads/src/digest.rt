//! A digest of all that came of a workload.

use byteorder::{ByteOrder, LittleEndian};

/// How many bytes are taken at once.
const BLOCK: usize = 32;

const WORD: usize = 8;

/// A digest, and how many events it is of.
pub(crate) struct Digest {
    lanes: [u64; 4],
    pub(crate) events: u64,
}

impl Drop for Digest {
    fn drop(self) {
        let Digest {
            lanes: _lanes,
            events: _events,
        } = self;
    }
}

/// A lane that has taken one word more.
#[inline(always)]
fn taken(lane: u64, word: u64) -> u64 {
    lane.rotate_left(7).wrapping_add(word)
}

impl Digest {
    pub(crate) fn new() -> Digest {
        Digest {
            lanes: [1, 2, 3, 4],
            events: 0,
        }
    }

    /// Takes a number.
    #[inline(always)]
    pub(crate) fn number(&mut self, number: u64) {
        let lane = self.lanes[0].rotate_left(29) ^ number;
        self.lanes[0] = lane.wrapping_mul(0x9e37_79b9_7f4a_7c15);
    }

    /// Takes bytes.
    pub(crate) fn bytes(&mut self, bytes: &[u8]) {
        let [mut first, mut second, mut third, mut fourth] = self.lanes;
        let blocks = bytes.len() / BLOCK;
        for block in 0..blocks {
            let block = &bytes[BLOCK * block..BLOCK * block + BLOCK];
            first = taken(first, LittleEndian::read_u64(&block[..8]));
            second = taken(second, LittleEndian::read_u64(&block[8..16]));
            third = taken(third, LittleEndian::read_u64(&block[16..24]));
            fourth = taken(fourth, LittleEndian::read_u64(&block[24..]));
        }
        let rest = &bytes[BLOCK * blocks..];
        let words = rest.len() / WORD;
        for word in 0..words {
            first = taken(
                first,
                LittleEndian::read_u64(&rest[WORD * word..WORD * word + WORD]),
            );
        }
        for byte in &rest[WORD * words..] {
            fourth = taken(fourth, u64::from(*byte));
        }
        self.lanes = [first, second, third, fourth];
        self.number(bytes.len() as u64);
    }

    /// One number for all.
    pub(crate) fn value(&self) -> u64 {
        let mut value = self.events;
        for lane in &self.lanes {
            value = (value ^ *lane).wrapping_mul(0xff51_afd7_ed55_8ccd);
            value ^= value >> 32;
        }
        value
    }
}
