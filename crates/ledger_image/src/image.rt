// The counts of an image's sections (docs/RULES.md, "Image").
ghost use Rattle.std.specs.Prelude.{◌≡◌};
ghost use Rattle.laws.specs.Number.{digits};
ghost use Rattle.laws.specs.Room.{room, put};
ghost use Rattle.ledger_image.specs.Images.{wide_count};

use cesr_number::number::{read_u16, write_u16};
use codec_cursor::{Cursor, Read};

// The count of a section of at most limit states. Where it is not there or above the limit, it counts none.
pub fn read_count(c: Cursor, s: &[u8], limit: u16) -> Read<usize>
    ensures { result ≡ wide_count limit s.now c }
{
    let count = read_u16(s, c.at);
    let next = c.advance(s, 2).expect_that(count <= limit);
    if next.ok {
        return Read {
            value: count as usize,
            next,
        };
    }
    Read { value: 0, next }
}

// Stores both bytes or none, and answers which.
pub fn write_count(out: &mut [u8], at: usize, count: usize) -> bool
    ensures { (result ≡ room out.old at 2) × (out.new ≡ put out.old at (digits 2 count)) }
{
    write_u16(out, at, (count % 0x1_0000) as u16)
}
