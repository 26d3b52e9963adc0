// A digest or a prefix: a code letter and 32 bytes (docs/RULES.md, "Bytes").
ghost use Rattle.std.specs.Prelude.{◌≡◌};
ghost use Rattle.cesr.specs.Primitives.{none, read_matter, said_at, eq_matter, is_basic, is_said};

use crate::{BasicPrefix, Matter, Said};
use cesr_number::number::{has_room, read_u64};

impl Matter {
    // What stands where there is no primitive: no code letter is 0.
    pub fn none() -> Matter
        ensures { result ≡ none }
    {
        Matter {
            code: 0,
            w0: 0,
            w1: 0,
            w2: 0,
            w3: 0,
        }
    }

    pub fn read(s: &[u8], at: usize) -> Matter
        ensures { result ≡ read_matter s.now at }
    {
        if has_room(s.len(), at, 33) {
            return Matter {
                code: s[at] as u64,
                w0: read_u64(s, at + 1),
                w1: read_u64(s, at + 9),
                w2: read_u64(s, at + 17),
                w3: read_u64(s, at + 25),
            };
        }
        Matter::none()
    }

    // Whether the primitive at a place is this one, by its first word first. It is compared where it stands, since a primitive that is read is first stored and then loaded again.
    #[inline(always)]
    pub fn same_at(self, s: &[u8], at: usize) -> bool
        ensures { result ≡ eq_matter (read_matter s.now at) self }
    {
        if !has_room(s.len(), at, 33) {
            return Matter::none() == self;
        }
        let first = read_u64(s, at + 1);
        if first != self.w0 {
            return false;
        }
        let last = (read_u64(s, at + 17) == self.w2) & (read_u64(s, at + 25) == self.w3);
        (s[at] as u64 == self.code)
            & ((first == self.w0) & ((read_u64(s, at + 9) == self.w1) & last))
    }

    // The code letter is a basic prefix's: B or D, 66 or 68.
    pub fn is_basic(self) -> bool
        ensures { result ≡ is_basic self }
    {
        (self.code == 66) | (self.code == 68)
    }

    // The code letter is a digest's: E to I, 69 to 73.
    pub fn is_said(self) -> bool
        ensures { result ≡ is_said self }
    {
        (69 <= self.code) & (self.code <= 73)
    }
}

impl Said {
    // What stands at a place as a digest, whatever its letter is.
    pub fn read(s: &[u8], at: usize) -> Said
        ensures { result ≡ said_at s.now at }
    {
        Said(Matter::read(s, at))
    }
}
