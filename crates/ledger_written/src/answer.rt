// What is answered where an image is to be written, and whether a buffer has room for it (docs/RULES.md, "Image").
ghost use Rattle.std.specs.Prelude.{◌≡◌, leb};
ghost use Rattle.ledger_written.specs.Writes.{image_size, answer_of};

use crate::WriteError;

// Whether the buffer has room for the first section, of `first` bytes, and the second: two bytes for its count and 115 for each row.
fn has_room(first: usize, row_count: usize, room: usize) -> bool
    ensures { result ≡ leb (image_size first row_count) room }
{
    if room < 2 {
        return false;
    }
    if room - 2 < first {
        return false;
    }
    row_count <= (room - 2 - first) / 115
}

// What is answered: a ledger that breaks a reading rule is refused first, then a buffer that is too short. Else the image's size.
#[tactic(auto, unfolding(crate::specs::Writes::answer_of))]
pub fn writing(ok: bool, first: usize, row_count: usize, room: usize) -> Result<usize, WriteError>
    ensures { result ≡ answer_of ok (leb (image_size first row_count) room) (image_size first row_count) }
{
    if !ok {
        return Err(WriteError::Malformed);
    }
    if !has_room(first, row_count, room) {
        return Err(WriteError::ShortBuffer);
    }
    Ok(first + (2 + 115 * row_count))
}
