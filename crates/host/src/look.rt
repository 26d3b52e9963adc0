// The look-up in a ledger that a host lends as one block (docs/RULES.md, "Host's calls", "Look-up"). Both arrays are lent on where they lie, so nothing of the table is copied.
ghost use Rattle.std.specs.Prelude.{◌≡◌};
ghost use Rattle.ledger_step.specs.Ledgers.{look_up};
ghost use Rattle.ledger_table.specs.Tables.{view_ledger};
ghost use Rattle.host_ledger.specs.LedgerCalls.{key_in, look_up_report};

use host_ledger::key::key_in;
use host_ledger::report::report_looked_up;
use ledger_lookup::lookup::look_up;
use ledger_table::Ledger;

// The standing of a credential.
#[unsafe(no_mangle)]
pub extern "C" fn jamfell_look_up(
    ledger: &Ledger,
    registry: &[u8],
    credential: &[u8],
    report: &mut [u8; 36],
) -> u8
    ensures number { result ≡ (look_up (view_ledger ledger.now) (key_in registry.now credential.now)).refusal }
    ensures report { report.new ≡ look_up_report (look_up (view_ledger ledger.now) (key_in registry.now credential.now)) }
{
    let key = key_in(registry, credential);
    let registry_count = ledger.registry_count;
    let row_count = ledger.row_count;
    let answer = look_up(
        &ledger.registries,
        registry_count,
        &ledger.rows,
        row_count,
        key.registry,
        key.credential,
    );
    report_looked_up(answer, report)
}
