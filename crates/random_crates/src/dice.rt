//! Random numbers.

use rand_core::utils::NextWord;
use rand_pcg::Pcg32;

/// What brings the workspaces of one seed apart, beside their numbers.
const STEP: u64 = 0x9e37_79b9_7f4a_7c15;

/// A source of random numbers.
#[derive(Drop)]
pub struct Dice {
    words: Pcg32,
}

impl Dice {
    /// The numbers of a workspace, by the seed and its number.
    pub fn new(seed: u64, number: u64) -> Dice {
        let state = seed.wrapping_add(number.wrapping_mul(STEP));
        Dice {
            words: Pcg32::new(state, number),
        }
    }

    /// A number below this one, or 0.
    pub fn below(&mut self, sides: usize) -> usize {
        let word: u32 = self.words.next_word();
        (word as usize).checked_rem(sides).unwrap_or(0)
    }

    /// Whether it is so, once in so many times.
    pub fn once_in(&mut self, times: usize) -> bool {
        self.below(times) == 0
    }

    /// One of some texts.
    pub fn one_of(&mut self, texts: &[&'static str]) -> &'static str {
        let place = self.below(texts.len());
        texts.get(place).copied().unwrap_or("")
    }
}
