//! Reproducible random numbers: the same seed and case yield the same numbers in each run.

use rand_core::Rng;
use rand_pcg::Pcg32;

#[derive(Drop)]
pub struct Dice {
    words: Pcg32,
    // A second stream, for stops inside a transaction, so that drawing from it takes no numbers from the first one.
    cuts: Pcg32,
}

impl Dice {
    pub fn new(seed: u64, case: u64) -> Dice {
        let mixed = case.wrapping_mul(0x9E37_79B9_7F4A_7C15);
        Dice {
            words: Pcg32::new(seed.wrapping_add(mixed), case),
            cuts: Pcg32::new(!seed.wrapping_add(mixed), case),
        }
    }

    pub fn below(&mut self, n: u32) -> u32 {
        below(&mut self.words, n)
    }

    /// Draws how many bytes of the interrupted transaction a stop sends at most (`u32::MAX`: all; `None`: none).
    pub fn cut(&mut self) -> Option<u32> {
        match below(&mut self.cuts, 12) {
            0 | 1 => Some(below(&mut self.cuts, 7)),
            2 => Some(below(&mut self.cuts, 261)),
            3 => Some(u32::MAX),
            _ => None,
        }
    }

    pub fn up_to(&mut self, most: u64) -> u64 {
        let n = most.saturating_add(1);
        self.words.next_u64().checked_rem(n).unwrap_or(0)
    }

    pub fn hits(&mut self, times: u32, of: u32) -> bool {
        self.below(of) < times
    }

    pub fn byte(&mut self) -> u8 {
        self.words.next_u32().to_be_bytes()[0]
    }

    pub fn fill(&mut self, bytes: &mut [u8]) {
        self.words.fill_bytes(bytes);
    }

    /// Draws `first` or one of `others`, each with the same probability.
    pub fn pick<T: Copy>(&mut self, first: T, others: &[T]) -> T {
        let count = u32::try_from(others.len()).unwrap_or(u32::MAX);
        let at = self.up_to(u64::from(count));
        match usize::try_from(at) {
            Ok(at) => others.get(at).copied().unwrap_or(first),
            Err(_) => first,
        }
    }
}

fn below(words: &mut Pcg32, n: u32) -> u32 {
    words.next_u32().checked_rem(n).unwrap_or(0)
}
