// The members after a rotation (docs/RULES.md, "Lists of backers").
ghost use Rattle.std.specs.Prelude.{◌≡◌, ◌≤◌, length, leb, is_ok, IfOk};
ghost use Rattle.events.specs.Members.{view};
ghost use Rattle.registry_members.specs.Updated.{survivors, updated_members};

use cesr::BasicPrefix;
use events::{Members, NoRoom};
use events_member_set::member_set::Prefixes;

// How many of the current members are not cut.
pub fn surviving<C: Prefixes, L: Prefixes>(current: C, cuts: L) -> usize
    ensures { result ≡ length (survivors (L.list cuts) (C.list current)) }
{
    let mut left = 0;
    let mut rest = current;
    for _ in 0..current.size() {
        let next = rest.split();
        rest = next.1;
        if !cuts.has(next.0) {
            left += 1;
        }
    }
    left
}

// Survivors in their order, then additions in theirs. There is no such list where there are more than 16.
pub fn updated_members<L: Prefixes>(
    current: &[BasicPrefix],
    cuts: L,
    additions: L,
) -> Result<Members, NoRoom>
    ensures ok { is_ok result ≡ leb (length (updated_members current.now (L.list cuts) (L.list additions))) 16 }
    ensures list { IfOk result (λ m. view m ≡ updated_members current.now (L.list cuts) (L.list additions)) }
    ensures count { IfOk result (λ m. m.count ≤ 16) }
{
    let mut members = Members::empty();
    for p in current {
        if cuts.has(*p) {
            continue;
        }
        members.push(*p)?;
    }
    let mut rest = additions;
    for _ in 0..additions.size() {
        let next = rest.split();
        members.push(next.0)?;
        rest = next.1;
    }
    Ok(members)
}
