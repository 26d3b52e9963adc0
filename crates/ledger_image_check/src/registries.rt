// The registries of an image: each is read, and held to the reading rules that speak of registries alone.
ghost use Rattle.std.specs.Prelude.{◌≡◌, false, MatchResult};
ghost use Rattle.ledger_image_rows_check.specs.IdLists.{view_ids};
ghost use Rattle.ledger_image_check.specs.Checks.{section_passes, Passed};

use crate::{Malformed, SectionRead};
use codec_cursor::Cursor;
use ledger_image::image::read_count;
use ledger_image_rows_check::Ids;
use ledger_registry_rules::rules::registry_sound;
use registry_state::RegistryState;

// A registry passes where it is there, keeps the rules of one registry, and has the id of none before it.
pub(crate) fn check_registries(s: &[u8]) -> Result<SectionRead, Malformed>
    ensures { MatchResult result (λ r. Passed s.now (view_ids r.ids) r.next) (λ e. section_passes s.now ≡ false) }
{
    let section = read_count(Cursor::start(), s, 16);
    let mut next = section.next;
    let mut ids = Ids::empty();
    for i in 0..section.value {
        let g = RegistryState::read(next, s);
        let known = ids.contains(g.value.id);
        if !(g.next.ok & (registry_sound(&g.value) & !known)) {
            return Err(Malformed);
        }
        ids.push(g.value.id);
        next = g.next;
    }
    Ok(SectionRead { ids, next })
}
