// Lists of backers that stay in the bytes (docs/RULES.md, "Lists of backers").
ghost use Rattle.std.specs.Prelude.{◌≡◌};
ghost use Rattle.events.specs.Members.{has};
ghost use Rattle.codec.specs.TelEvents.{members_in};
ghost use Rattle.codec.specs.Readers.{read_prefix, times};

use crate::InBytes;
use cesr::BasicPrefix;
use codec::section::at_most_16;
use codec::{Cursor, Listed};
use events_member_set::member_set::Prefixes;

// Whether x is among the n prefixes that stand from a cursor on. Each is compared where it stands.
// The loop is written out at its callers, as are a step and a search of a list below: else the prefix is stored and loaded again for each comparison.
#[inline(always)]
pub fn found_in(s: &[u8], start: Cursor, n: usize, x: BasicPrefix) -> bool
    ensures { result ≡ has x (times n read_prefix s.now start).value }
{
    let mut c = start;
    let mut found = false;
    for _ in 0..n {
        found |= x.0.same_at(s, c.at);
        c = c.pass_prefix(s);
    }
    found
}

impl Prefixes for InBytes<'_> {
    ghost list = { λ l. members_in l.bytes.now l.list };

    fn size(self) -> usize {
        at_most_16(self.list.count)
    }

    #[inline(always)]
    fn split(self) -> (BasicPrefix, Self) {
        let p = self.list.start.prefix(self.bytes);
        let count = self.size().saturating_sub(1);
        let start = p.next;
        let tail = InBytes {
            bytes: self.bytes,
            list: Listed { count, start },
        };
        (p.value, tail)
    }

    fn front(self, n: usize) -> Self {
        let count = self.list.count.min(n);
        let start = self.list.start;
        InBytes {
            bytes: self.bytes,
            list: Listed { count, start },
        }
    }

    #[inline(always)]
    fn has(self, x: BasicPrefix) -> bool {
        found_in(self.bytes, self.list.start, self.size(), x)
    }
}
