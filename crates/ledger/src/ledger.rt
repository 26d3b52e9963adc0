// A ledger as a value: both arrays with their counts (docs/RULES.md, "Ledger"). Each call lends the arrays to the call of that name over slices.
ghost use Rattle.std.specs.Prelude.{◌≡◌, false};
ghost use Rattle.std.specs.Result.{result_unwrap_or};
ghost use Rattle.registry_answer.specs.Answers.{accepts};
ghost use Rattle.ledger_step.specs.Ledgers.{look_up};
ghost use Rattle.ledger_step.specs.Refusals.{refusal_of};
ghost use Rattle.ledger_step.specs.Steps.{step_of};
ghost use Rattle.ledger_image.specs.Images.{image_of, image_number, written_of};
ghost use Rattle.ledger_standing.specs.Lookups.{key_pair, view_looked_up};
ghost use Rattle.ledger_write.specs.Writes.{view_written};
ghost use Rattle.ledger_table.specs.Tables.{view_ledger, ledger_after};

use cesr::Said;
use ledger_apply::apply::apply as apply_lent;
use ledger_lookup::lookup::look_up as look_up_lent;
use ledger_read::read::read_image as read_lent;
use ledger_standing::{Malformed, Standing};
use ledger_table::Ledger;
use ledger_write::WriteError;
use ledger_write::write::write_image as write_lent;
use registry_error::Answer;

// One attempt. After a refusal the ledger is as it was, whatever stands in its arrays.
pub fn apply(ledger: &mut Ledger, attempt: &[u8]) -> Answer
    ensures answer { result ≡ (step_of (view_ledger ledger.old) attempt.now).answer }
    ensures ledger { view_ledger ledger.new ≡ (step_of (view_ledger ledger.old) attempt.now).ledger }
    ensures kept { accepts result ≡ false → ledger.new ≡ ledger.old }
{
    let registry_count = ledger.registry_count;
    let row_count = ledger.row_count;
    let applied = apply_lent(
        &mut ledger.registries,
        registry_count,
        &mut ledger.rows,
        row_count,
        attempt,
    );
    ledger.registry_count = applied.registry_count;
    ledger.row_count = applied.row_count;
    applied.answer
}

// The standing of a credential.
pub fn look_up(ledger: &Ledger, registry: Said, credential: Said) -> Result<Standing, Malformed>
    ensures { view_looked_up result ≡ look_up (view_ledger ledger.now) (key_pair registry credential) }
{
    look_up_lent(
        &ledger.registries,
        ledger.registry_count,
        &ledger.rows,
        ledger.row_count,
        registry,
        credential,
    )
}

// The image, from the buffer's start. After a refusal the buffer is as it was, and so are the bytes behind an image.
pub fn write_image(ledger: &Ledger, out: &mut [u8]) -> Result<usize, WriteError>
    ensures { view_written result out.new ≡ written_of (view_ledger ledger.now) out.old }
{
    write_lent(
        &ledger.registries,
        ledger.registry_count,
        &ledger.rows,
        ledger.row_count,
        out,
    )
}

// The ledger of an image. After a refusal the caller has the one that it handed in.
pub fn read_image(held: Ledger, image: &[u8]) -> Result<Ledger, Malformed>
    ensures number { refusal_of result ≡ image_number (image_of image.now) }
    ensures ledger { view_ledger (result_unwrap_or result held) ≡ ledger_after (image_of image.now) (view_ledger held) }
{
    let mut registries = held.registries;
    let mut rows = held.rows;
    let read = read_lent(image, &mut registries, &mut rows)?;
    Ok(Ledger {
        registries,
        registry_count: read.registry_count,
        rows,
        row_count: read.row_count,
    })
}
