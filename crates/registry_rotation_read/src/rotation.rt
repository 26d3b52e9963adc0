// The rotation of a registry whose state stays in its bytes, as the attempt does (docs/RULES.md, "Orders", "Next states").
ghost use Rattle.std.specs.Prelude.{◌≡◌};
ghost use Rattle.events_tel.specs.TelEvents.{members_in};
ghost use Rattle.registry_wire.specs.Attempts.{decode_of};
ghost use Rattle.registry_management.specs.Managements.{view_management};
ghost use Rattle.registry.specs.RegistryFolds.{ingest_decoded, rotation_at};

use crate::RotationRead;
use events_tel::Listed;
use registry::rotation::rotation;
use registry_error::RegistryRejection;
use registry_management::Management;
use registry_rotation::InBytes;

// The next event of a registry whose current backers are a list in the held bytes.
pub fn ingest_read(
    g: &Management,
    current: Listed,
    held: &[u8],
    s: &[u8],
) -> Result<RotationRead, RegistryRejection>
    ensures { rotation_at (view_management g.now (members_in held.now current)) s.now result ≡ ingest_decoded (view_management g.now (members_in held.now current)) (decode_of s.now) }
{
    let current = InBytes {
        bytes: held,
        list: current,
    };
    rotation(g, current, s)
}
