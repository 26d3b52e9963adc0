//! Counts of what a program finds.
#![tactic(auto)]

ghost use Rattle.std.specs.Prelude.{◌≡◌};
ghost use Rattle.tally.specs.Counts.{plus_of, counted_of, no_count, no_tally, tallied_of};

/// How many there were, and for each of K tests of how many it held.
#[derive(Clone, Copy)]
pub struct Count<const K: usize> {
    pub all: u64,
    pub held: [u64; K],
}

/// Counts at N places, and of all.
#[derive(Clone, Copy)]
pub struct Tally<const K: usize, const N: usize> {
    pub places: [Count<K>; N],
    pub total: Count<K>,
}

/// One more where the test holds. A count at its end stays there.
pub fn plus(count: u64, test: bool) -> u64
    ensures { result ≡ plus_of count test }
{
    count.saturating_add(u64::from(test))
}

impl<const K: usize> Count<K> {
    pub fn zero() -> Self
        ensures { result ≡ no_count K }
    {
        Count {
            all: 0,
            held: [0; K],
        }
    }

    pub fn count(&mut self, tests: [bool; K])
        ensures { self.new ≡ counted_of self.old tests.entry }
    {
        self.all = plus(self.all, true);
        for i in 0..K {
            self.held[i] = plus(self.held[i], tests[i]);
        }
    }
}

impl<const K: usize, const N: usize> Tally<K, N> {
    pub fn empty() -> Self
        ensures { result ≡ no_tally K N }
    {
        Tally {
            places: [Count::zero(); N],
            total: Count::zero(),
        }
    }

    /// Counts at a place and in all; past the last place in all only.
    #[tactic(auto, unfolding(crate::specs::Counts::tallied_of))]
    pub fn count(&mut self, place: usize, tests: [bool; K])
        ensures { self.new ≡ tallied_of self.old place tests.entry }
    {
        if place < N {
            self.places[place].count(tests);
        }
        self.total.count(tests);
    }
}
