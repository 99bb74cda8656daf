//! Choices that follow one another by a plain rule, so that each run makes the same ones.

/// A counter of choices: a linear congruential generator.
#[derive(Clone, Copy)]
pub struct Counter {
    state: u32,
}

impl Counter {
    /// The counter of this number.
    pub fn new(number: u32) -> Counter {
        Counter { state: number }
    }

    /// The next choice among so many, counted from 0; 0 among none.
    pub fn below(&mut self, count: u32) -> u32 {
        self.state = self
            .state
            .wrapping_mul(1_664_525)
            .wrapping_add(1_013_904_223);
        // the upper half: the lower bits of such a generator repeat soon
        (self.state >> 16).checked_rem(count).unwrap_or(0)
    }

    /// The next choice among the items of a list of this length; 0 where there are none.
    pub fn place_in(&mut self, length: usize) -> usize {
        self.below(u32::try_from(length).unwrap_or(u32::MAX)) as usize
    }

    /// Whether the next choice is taken, of which one in so many is.
    pub fn takes(&mut self, one_in: u32) -> bool {
        self.below(one_in) == 0
    }
}
