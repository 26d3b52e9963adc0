// The call of a ledger that a host lends as one block: one attempt (docs/RULES.md, "Host's calls"). Both arrays are lent on where they lie, so nothing of the table is copied.
ghost use Rattle.std.specs.Prelude.{◌≡◌, false};
ghost use Rattle.registry_answer.specs.Answers.{accepts};
ghost use Rattle.registry_error.specs.Errors.{answer_number};
ghost use Rattle.ledger_step.specs.Steps.{request_of, effect, step_of};
ghost use Rattle.ledger_apply.specs.Applies.{Stores};
ghost use Rattle.ledger_table.specs.Tables.{view_ledger};
ghost use Rattle.ledger_laws.specs.LentTables.{lent_of};
ghost use Rattle.host_report.specs.Reports.{answer_report};

use host_report::report::report_answer;
use ledger_apply::apply::apply;
use ledger_table::Ledger;

// After a refusal the block is as it was, whatever stands in it.
#[unsafe(no_mangle)]
pub extern "C" fn jamfell_apply(ledger: &mut Ledger, attempt: &[u8], report: &mut [u8; 36]) -> u8
    ensures number { result ≡ answer_number (step_of (view_ledger ledger.old) attempt.now).answer }
    ensures report { report.new ≡ answer_report (step_of (view_ledger ledger.old) attempt.now).answer }
    ensures ledger { view_ledger ledger.new ≡ (step_of (view_ledger ledger.old) attempt.now).ledger }
    ensures kept { accepts (step_of (view_ledger ledger.old) attempt.now).answer ≡ false → ledger.new ≡ ledger.old }
    ensures stored { Stores (effect (view_ledger ledger.old) (request_of attempt.now)) (lent_of ledger.old) (lent_of ledger.new) }
{
    let registry_count = ledger.registry_count;
    let row_count = ledger.row_count;
    let applied = apply(
        &mut ledger.registries,
        registry_count,
        &mut ledger.rows,
        row_count,
        attempt,
    );
    ledger.registry_count = applied.registry_count;
    ledger.row_count = applied.row_count;
    report_answer(applied.answer, report)
}
