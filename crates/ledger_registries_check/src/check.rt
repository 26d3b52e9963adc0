// The check of all registries that are lent (docs/RULES.md, "Reading rules").
ghost use Rattle.std.specs.Prelude.{◌≡◌, map, length, take};
ghost use Rattle.ledger_registries.specs.Ledgers.{held_of, holds, registry_rules};

use ledger_registries::registries::find_registry;
use ledger_registry_rules::rules::registry_sound;
use registry_state::RegistryState;

// Whether the registries keep to the reading rules that speak of them alone. There are 16, and at most so many of them are in use. Each of these is sound by itself, and its id is first found at no place before it.
pub fn registries_sound(registries: &[RegistryState], count: usize) -> bool
    ensures { result ≡ holds (registry_rules (length registries.now) count (map held_of (take count registries.now))) }
{
    if registries.len() != 16 || count > 16 {
        return false;
    }
    for i in 0..count {
        let g = &registries[i];
        if !registry_sound(g) || find_registry(registries, i, g.id) < i {
            return false;
        }
    }
    true
}
