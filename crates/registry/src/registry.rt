// The rotations of a registry whose state is a value (docs/RULES.md, "Orders", "Next states").
ghost use Rattle.std.specs.Prelude.{◌≡◌, true, IfOk};
ghost use Rattle.registry_state.specs.States.{view_registry, well_registry};
ghost use Rattle.registry_inception.specs.InceptionFolds.{view_outcome};
ghost use Rattle.registry.specs.RegistryFolds.{ingest_of};

use crate::rotation::rotation;
use cesr::Said;
use registry_error::RegistryRejection;
use registry_management::management_of;
use registry_members::state::updated_members;
use registry_rotation::InBytes;
use registry_state::RegistryState;

// The next event of a registry: a rotation.
pub fn ingest(g: RegistryState, s: &[u8]) -> Result<RegistryState, RegistryRejection>
    ensures outcome { view_outcome (view_registry g) result ≡ ingest_of g s.now }
    ensures within { IfOk result (λ h. well_registry h ≡ true) }
{
    if !g.well_formed() {
        return Err(RegistryRejection::Malformed);
    }
    let current = g.backers.as_slice();
    let r = rotation(&management_of(g), current, s)?;
    let cuts = InBytes {
        bytes: s,
        list: r.cuts,
    };
    let additions = InBytes {
        bytes: s,
        list: r.additions,
    };
    let backers = updated_members(current, cuts, additions).unwrap();
    Ok(RegistryState {
        id: g.id,
        issuer: g.issuer,
        sn: r.sn,
        latest: Said::read(s, r.latest),
        toad: r.toad,
        configs: g.configs,
        backers,
    })
}
