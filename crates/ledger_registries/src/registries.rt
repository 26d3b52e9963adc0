// Registries behind a slice of states, in the order in which they arrived (docs/RULES.md, "Ledger", "Reading rules"). These functions find an id, read a registry and store a registry; beside them only the check of all registries and the image reach into the slice.
ghost use Rattle.std.specs.Prelude.{◌≡◌, map, ◌<◌, length, get_or, set, position};
ghost use Rattle.cesr.specs.Primitives.{eq_said};
ghost use Rattle.ledger_step.specs.Ledgers.{held_of};
ghost use Rattle.ledger_registries.specs.Registries.{no_held, blank, find_registry};

use cesr::Said;
use ledger_step::slices::in_use;
use registry_state::RegistryState;

// The registry at a place; past the end a blank one.
pub fn read_registry(registries: &[RegistryState], at: usize) -> RegistryState
    ensures held { held_of result ≡ get_or (map held_of registries.now) at no_held }
    ensures state { at < length registries.now → result ≡ get_or registries.now at blank }
{
    match registries.get(at) {
        Some(g) => *g,
        None => RegistryState::none(),
    }
}

// The registry is stored at a place; past the end nothing is. With `get_mut` the proof does not close.
pub fn store_registry(registries: &mut [RegistryState], at: usize, g: RegistryState)
    ensures { registries.new ≡ set registries.old at g }
{
    if at < registries.len() {
        registries[at] = g;
    }
}

#[tactic(auto, unfolding(cesr::specs::Primitives::eq_matter))]
fn position(registries: &[RegistryState], id: Said) -> Option<usize>
    ensures { result ≡ position (λ g. eq_said g.id id) registries.now }
{
    registries.iter().position(|g| g.id == id)
}

// The first place among the first `count` registries whose registry has that id. Where there is none it answers how many these registries are: the count, or the slice's length where that is less. There a new registry has its place.
pub fn find_registry(registries: &[RegistryState], count: usize, id: Said) -> usize
    ensures { result ≡ find_registry registries.now count id }
{
    let used = in_use(registries, count);
    position(used, id).unwrap_or(used.len())
}
