// How the program's input is cut in attempts (docs/RULES.md, "What the program prints"). The input may be of any length, so it is
// read piece by piece: two bytes for the count, then two bytes and a body for each attempt. What each piece means is decided here.
ghost use Rattle.std.specs.Prelude.{◌≡◌, ◌-◌, ◌≤◌, ltb, IfSome};
ghost use Rattle.ledger_frames.specs.Runs.{size_of, start_of, took_of, finish_of};

use crate::Run;
use cesr_number::number::{has_room, read_u16};

// A count or a length, from the bytes that were read for it: none where two did not arrive.
#[tactic(auto, unfolding(crate::specs::Runs::size_of, laws::specs::Room::room, laws::specs::Number::number_at))]
pub fn read_size(s: &[u8]) -> Option<usize>
    ensures value { result ≡ size_of s.now }
    ensures size_bound { IfSome result (λ n. n ≤ 65535) }
{
    if has_room(s.len(), 0, 2) {
        Some(usize::from(read_u16(s, 0)))
    } else {
        None
    }
}

impl Run {
    // From the bytes that were read for the count.
    #[tactic(auto, unfolding(crate::specs::Runs::start_of))]
    pub fn start(s: &[u8]) -> Run
        ensures { result ≡ start_of s.now }
    {
        let size = read_size(s);
        let count = size.unwrap_or(0);
        Run {
            count,
            left: count,
            broken: size.is_none(),
        }
    }

    // Whether a further attempt is counted.
    pub fn wants(self) -> bool
        ensures { result ≡ ltb 0 self.left }
    {
        0 < self.left
    }

    // After the bytes for a length were read, and for the body as many as it says, of which got arrived. The attempt is there whole
    // where the answer is not broken.
    #[tactic(auto, unfolding(crate::specs::Runs::took_of))]
    pub fn took(self, length: Option<usize>, got: usize) -> Run
        ensures { result ≡ took_of self length got }
    {
        match length {
            Some(n) if self.wants() & (n <= got) => Run {
                left: self.left - 1,
                ..self
            },
            _ => Run {
                left: 0,
                broken: true,
                ..self
            },
        }
    }

    // The position, from 1, of the attempt that was taken last.
    pub fn position(self) -> u64
        ensures { result ≡ self.count - self.left }
    {
        self.count.saturating_sub(self.left) as u64
    }

    // After the last attempt, when more bytes arrived behind it.
    #[tactic(auto, unfolding(crate::specs::Runs::finish_of))]
    pub fn finish(self, more: usize) -> Run
        ensures { result ≡ finish_of self more }
    {
        Run {
            broken: self.broken | self.wants() | (0 < more),
            ..self
        }
    }
}
