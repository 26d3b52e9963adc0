// The reading rules of one registry, and what the check of all of them asks of each.
ghost use Rattle.std.specs.Prelude.{◌≡◌, ◌&&◌};
ghost use Rattle.events.specs.Members.{view, check_members};
ghost use Rattle.codec.specs.Layout.{all};
ghost use Rattle.registry_state.specs.States.{view_registry, well_registry, is_backer};
ghost use Rattle.registry_answer.specs.Answers.{accepts, backer_set};
ghost use Rattle.registry_laws.specs.ReadingRules.{sound_registry};

use cesr::BasicPrefix;
use events::Members;
use registry_state::RegistryState;
use registry_state::state::all_configs;

#[tactic(auto, unfolding(events::specs::Members::view))]
fn listed(members: &Members) -> &[BasicPrefix]
    ensures { result.now ≡ view members.now }
{
    members.items.get(..members.count).unwrap_or(&members.items)
}

// Whether every backer has a prefix's letter and stands once.
fn backers_sound(backers: &[BasicPrefix]) -> bool
    ensures { result ≡ (all is_backer backers.now && accepts (backer_set (check_members backers.now))) }
{
    for i in 0..backers.len() {
        let x = backers[i];
        if !x.0.is_basic() || backers[..i].contains(&x) {
            return false;
        }
    }
    true
}

// The layout and limits of one registry, and its own reading rules.
pub fn registry_sound(g: &RegistryState) -> bool
    ensures { result ≡ (well_registry g.now && sound_registry (view_registry g.now)) }
{
    let backers = listed(&g.backers);
    let n = backers.len();
    let issuer = g.issuer.is_basic() | g.issuer.is_said();
    let threshold = g.toad.is_exact(n);
    let bare = !g.configs.no_backers() | (n == 0);
    let backers = backers_sound(backers) & (threshold & bare);
    let lists = all_configs(g.configs) & backers;
    let letters = g.id.0.is_said() & (issuer & (g.latest.0.is_said() & lists));
    (g.configs.count <= 8) & ((g.backers.count <= 16) & letters)
}
