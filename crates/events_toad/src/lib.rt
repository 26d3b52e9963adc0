// Thresholds of backer receipts (docs/RULES.md, "Thresholds").
#![tactic(auto)]

ghost use Rattle.std.specs.Prelude.{◌≡◌, ◌<◌, ◌^◌, Err};
ghost use Rattle.events_toad.specs.Toads.{toad_of, toad_number, exact_ok, exact_of, ceil, strong_majority, least_of, ample_of};

// Wraps its number, so that a threshold is never taken for a count of receipts or of backers.
#[repr(C)]
#[derive(Clone, Copy, PartialEq, Eq)]
pub struct Toad(u32);

// Why there is no threshold.
#[derive(Clone, Copy, PartialEq, Eq)]
pub enum ToadError {
    // It is not 1 to the number of witnesses, or not 0 where there are none.
    OutOfRange { toad: u32, witnesses: usize },
    // The threshold of so many witnesses does not fit 32 bits.
    Overflow { witnesses: usize },
}

impl ToadError {
    // The refusal's number: both have the same, so it does not come from their order.
    pub fn number(self) -> u8
        ensures { result ≡ toad_number (Err self) }
    {
        26
    }
}

// A third, rounded up.
#[tactic(auto, unfolding(crate::specs::Toads::ceil))]
fn third_up(x: usize) -> usize
    ensures { result ≡ ceil x 3 }
{
    x.div_ceil(3)
}

// The least m with m >= (n + f + 1) / 2, for f faulty witnesses of n. The halves are summed, since n + f + 1 could wrap.
#[tactic(auto, unfolding(crate::specs::Toads::strong_majority, crate::specs::Toads::ceil))]
fn least_strong_majority(n: usize, f: usize) -> usize
    requires { f < 2 ^ 63 }
    ensures { result ≡ strong_majority n f }
{
    n / 2 + f / 2 + (n % 2 + f % 2 + 2) / 2
}

// The least threshold of n witnesses, before its range is looked at.
#[tactic(auto, unfolding(crate::specs::Toads::least_of, crate::specs::Toads::ceil))]
fn least(n: usize) -> usize
    ensures { result ≡ least_of n }
{
    if n == 0 {
        return 0;
    }
    let faultable = n - 1;
    let f_floor = (faultable / 3).max(1);
    let f_ceil = third_up(faultable).max(1);
    let m_floor = least_strong_majority(n, f_floor);
    let m_ceil = least_strong_majority(n, f_ceil);
    n.min(m_floor).min(m_ceil)
}

impl Toad {
    // The threshold that suffices of so many witnesses.
    #[tactic(auto, unfolding(crate::specs::Toads::ample_of))]
    pub fn ample(witnesses: usize) -> Result<Toad, ToadError>
        ensures { result ≡ ample_of witnesses }
    {
        let threshold = least(witnesses);
        match u32::try_from(threshold) {
            Ok(toad) => Ok(Toad(toad)),
            Err(_) => Err(ToadError::Overflow { witnesses }),
        }
    }

    // A threshold that somebody chose, held against the number of witnesses.
    #[tactic(auto, unfolding(crate::specs::Toads::exact_of))]
    pub fn exact(toad: u32, witnesses: usize) -> Result<Toad, ToadError>
        ensures { result ≡ exact_of toad witnesses }
    {
        let chosen = Toad(toad);
        if chosen.is_exact(witnesses) {
            Ok(chosen)
        } else {
            Err(ToadError::OutOfRange { toad, witnesses })
        }
    }

    // Whether this is a threshold of so many witnesses.
    #[tactic(auto, unfolding(crate::specs::Toads::exact_ok))]
    pub fn is_exact(self, witnesses: usize) -> bool
        ensures { result ≡ exact_ok self.0 witnesses }
    {
        let toad = self.0 as usize;
        if witnesses == 0 {
            return toad == 0;
        }
        (1 <= toad) & (toad <= witnesses)
    }

    // A threshold as it was read, held against nothing.
    pub fn from_wire(toad: u32) -> Toad
        ensures { result ≡ toad_of toad }
    {
        Toad(toad)
    }

    pub fn value(self) -> u32
        ensures { result ≡ self.0 }
    {
        self.0
    }
}
