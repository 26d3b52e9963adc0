// The section of credentials but for its loops: whether there is room for it (docs/RULES.md, "Image").
ghost use Rattle.std.specs.Prelude.{◌≡◌, ◌&&◌, ◌+◌, ◌*◌, leb};

// Whether there are `count` rows among the held ones, and room for their section: two bytes for the count and 115 for each row.
pub fn section_fits(count: usize, held: usize, room: usize) -> bool
    ensures { result ≡ (leb count held && leb (2 + 115 * count) room) }
{
    if room < 2 {
        return false;
    }
    (count <= held) & (count <= (room - 2) / 115)
}
