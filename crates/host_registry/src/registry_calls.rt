// A vcp and a vrt. The next state's bytes go to the start of `next`, each part from where it stands: no state is made as a value.
ghost use Rattle.std.specs.Prelude.{◌≡◌, ℕ, List};
ghost use Rattle.cesr.specs.Primitives.{read_matter};
ghost use Rattle.events_tel.specs.TelEvents.{members_in};
ghost use Rattle.registry_state.specs.States.{registry_bytes};
ghost use Rattle.registry_management.specs.Managements.{view_management};
ghost use Rattle.registry_room.specs.NextStates.{next_bytes};
ghost use Rattle.registry_inception.specs.InceptionFolds.{incepted_at};
ghost use Rattle.registry.specs.RegistryFolds.{rotated_at};
ghost use Rattle.host_next.specs.ByteFolds.{called, call_of};
ghost use Rattle.host_registry.specs.RegistryByteFolds.{registry_incept, registry_ingest, Leaves};

use cesr_sn::Sn;
use codec_cursor::Cursor;
use events_tel::Listed;
use host_next::registry_next::leave_next;
use host_parts::part::is_whole;
use host_report::report::report_answer;
use registry_error::RegistryRejection;
use registry_inception::Inception;
use registry_inception::registry::incept_read;
use registry_management::{Management, read_management};
use registry_room::NextState;
use registry_rotation_read::RotationRead;
use registry_rotation_read::rotation::ingest_read;

// What a vcp's state is made of. Its attempt is all there is: no list is held, and none is cut.
fn made_of(o: Inception) -> NextState
    ensures { (s : List ℕ) → next_bytes s s result ≡ registry_bytes (incepted_at s o) }
{
    let start = Cursor::start();
    let none = Listed { count: 0, start };
    let toad = o.toad;
    let configs = o.configs;
    let additions = o.backers;
    NextState {
        id: o.said,
        issuer: o.issuer,
        sn: Sn { hi: 0, lo: 0 },
        latest: o.said,
        toad,
        configs,
        current: none,
        cuts: none,
        additions,
    }
}

// A vcp.
pub fn registry_incept(attempt: &[u8], next: &mut [u8], report: &mut [u8; 36]) -> u8
    ensures { called result report.new next.new ≡ call_of (registry_incept attempt.now) next.old }
{
    match incept_read(attempt) {
        Ok(o) => leave_next(attempt, attempt, made_of(o), next, report),
        Err(refusal) => report_answer(Err(refusal), report),
    }
}

// What a vrt's state is made of. A state begins with its id, in 33 bytes, and its issuer.
fn rotated_of(g: Management, current: Listed, o: RotationRead) -> NextState
    ensures { (held s : List ℕ) → read_matter held 0 ≡ g.id.0 → read_matter held 33 ≡ g.issuer → next_bytes held s result ≡ registry_bytes (rotated_at (view_management g (members_in held current)) s o) }
{
    let sn = o.sn;
    let toad = o.toad;
    let configs = g.configs;
    let cuts = o.cuts;
    let additions = o.additions;
    NextState {
        id: 0,
        issuer: 33,
        sn,
        latest: o.latest,
        toad,
        configs,
        current,
        cuts,
        additions,
    }
}

// What a vrt leaves, in its places in the state's bytes and the attempt's.
fn rotated(state: &[u8], attempt: &[u8]) -> Result<NextState, RegistryRejection>
    ensures { Leaves state.now attempt.now result (registry_ingest state.now attempt.now) }
{
    let g = read_management(Cursor::start(), state);
    if !is_whole(g.next, state) {
        return Err(RegistryRejection::Malformed);
    }
    let o = ingest_read(&g.value, g.backers, state, attempt)?;
    Ok(rotated_of(g.value, g.backers, o))
}

// A vrt.
pub fn registry_ingest(state: &[u8], attempt: &[u8], next: &mut [u8], report: &mut [u8; 36]) -> u8
    ensures { called result report.new next.new ≡ call_of (registry_ingest state.now attempt.now) next.old }
{
    match rotated(state, attempt) {
        Ok(p) => leave_next(state, attempt, p, next, report),
        Err(refusal) => report_answer(Err(refusal), report),
    }
}
