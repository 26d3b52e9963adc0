// The sequence number: 128 bits in two words (docs/RULES.md, "Bytes").
ghost use Rattle.std.specs.Prelude.{◌≡◌, ◌+◌, ◌-◌, ◌^◌, eqb};
ghost use Rattle.cesr_number.specs.Room.{room, put};
ghost use Rattle.cesr_sn.specs.Numbers.{value, sn_of, read_sn, sn_bytes};

use crate::Sn;
use cesr_number::number::{has_room, read_u64, write_u64};

impl Sn {
    pub fn is_last(self) -> bool
        ensures { result ≡ eqb (value self) (2 ^ 128 - 1) }
    {
        (self.hi == 0xffff_ffff_ffff_ffff) & (self.lo == 0xffff_ffff_ffff_ffff)
    }

    // After the last comes 0; whoever counts on asks `is_last` first.
    pub fn next(self) -> Sn
        ensures { result ≡ sn_of (value self + 1) }
    {
        if self.lo < 0xffff_ffff_ffff_ffff {
            return Sn {
                hi: self.hi,
                lo: self.lo + 1,
            };
        }
        if self.hi < 0xffff_ffff_ffff_ffff {
            return Sn {
                hi: self.hi + 1,
                lo: 0,
            };
        }
        Sn { hi: 0, lo: 0 }
    }

    pub fn read(s: &[u8], at: usize) -> Sn
        ensures { result ≡ read_sn s.now at }
    {
        if has_room(s.len(), at, 16) {
            return Sn {
                hi: read_u64(s, at),
                lo: read_u64(s, at + 8),
            };
        }
        Sn { hi: 0, lo: 0 }
    }

    pub fn write(self, out: &mut [u8], at: usize) -> bool
        ensures { (result ≡ room out.old at 16) × (out.new ≡ put out.old at (sn_bytes self)) }
    {
        if !has_room(out.len(), at, 16) {
            return false;
        }
        write_u64(out, at, self.hi);
        write_u64(out, at + 8, self.lo);
        true
    }
}
