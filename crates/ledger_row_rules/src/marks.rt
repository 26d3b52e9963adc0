// Which rows have to be searched for the key of a row, told by the credentials that were met before it.
ghost use Rattle.std.specs.Prelude.{◌≡◌};
ghost use Rattle.ledger_row_rules.specs.Marking.{no_marks, marking, to_search};

use cesr::Said;

// A set of 1,024 bits. The bit that a credential's first word names is set once a row has that credential, so a row whose bit is not set needs no search.
#[derive(Clone, Copy)]
pub struct Marks {
    pub seen: [u64; 16],
}

impl Marks {
    #[tactic(auto, unfolding(crate::specs::Marking::no_marks))]
    pub fn none() -> Marks
        ensures { result ≡ no_marks }
    {
        Marks { seen: [0; 16] }
    }

    // How many of the `i` rows before have to be searched for the credential: all where its bit was set, and none where it was not. Now it is set.
    #[tactic(auto, unfolding(crate::specs::Marking::marking, crate::specs::Marking::to_search))]
    pub fn mark(&mut self, credential: Said, i: usize) -> usize
        ensures searched { result ≡ to_search self.old credential i }
        ensures marked { self.new ≡ marking self.old credential }
    {
        let x = credential.0.w0;
        let at = (x / 64 % 16) as usize;
        let bit: u64 = 1 << (x % 64);
        let word = self.seen[at];
        self.seen[at] = word | bit;
        if (word & bit) == bit { i } else { 0 }
    }
}
