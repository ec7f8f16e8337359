//! A digest of results.

/// A digest of texts and numbers, and how many there were.
#[derive(Clone, Copy)]
pub struct Digest {
    sum: u64,
    count: u64,
}

// By what the sum is multiplied for each number.
const FACTOR: u64 = 0x9e37_79b9_7f4a_7c15;

// By how many bits the sum is rotated before each number.
const TURN: u32 = 29;

// Returns fewer than eight bytes as one number.
fn last_word(bytes: &[u8]) -> u64 {
    let mut word = 0;
    for byte in bytes {
        word = (word << 8) | u64::from(*byte);
    }
    word
}

impl Digest {
    /// The digest of nothing.
    pub fn new() -> Digest {
        Digest {
            sum: 0xcbf2_9ce4_8422_2325,
            count: 0,
        }
    }

    // Puts eight bytes into the sum.
    fn mix(&mut self, word: u64) {
        self.sum = (self.sum.rotate_left(TURN) ^ word).wrapping_mul(FACTOR);
    }

    /// Adds a number.
    pub fn add_number(&mut self, number: usize) {
        self.mix(number as u64);
        self.count = self.count.wrapping_add(1);
    }

    /// Adds bytes and their number. It is never inlined, so that profiles show what digests cost.
    #[inline(never)]
    pub fn add_bytes(&mut self, bytes: &[u8]) {
        let (words, rest) = bytes.as_chunks::<8>();
        for word in words {
            self.mix(u64::from_le_bytes(*word));
        }
        self.mix(last_word(rest));
        self.add_number(bytes.len());
    }

    /// Adds a text.
    pub fn add_text(&mut self, text: &str) {
        self.add_bytes(text.as_bytes());
    }

    /// The digest of all that was added.
    pub fn sum(self) -> u64 {
        self.sum
    }

    /// How many texts and numbers were added.
    pub fn count(self) -> u64 {
        self.count
    }
}
