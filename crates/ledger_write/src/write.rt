// A ledger's image, written to the start of a buffer: the section of its registries, and behind it the section of its credentials (docs/RULES.md, "Image").
ghost use Rattle.std.specs.Prelude.{◌≡◌};
ghost use Rattle.ledger_step.specs.Ledgers.{lent_ledger};
ghost use Rattle.ledger_row_image.specs.Images.{written_of};
ghost use Rattle.ledger_written.specs.Writes.{view_written};

use ledger_check::check::sound;
use ledger_registry_image::registries::{registries_size, write_registries};
use ledger_row_image::row_image::write_rows;
use ledger_written::WriteError;
use ledger_written::answer::writing;
use registry_state::RegistryState;
use registry_state_credential::CredentialState;

// The image of a ledger, from the buffer's start. After a refusal the buffer is as it was, and so are the bytes behind an image.
pub fn write_image<'a>(
    registries: &'a [RegistryState],
    registry_count: usize,
    rows: &'a [CredentialState],
    row_count: usize,
    out: &mut [u8],
) -> Result<usize, WriteError>
    ensures { view_written result out.new ≡ written_of (lent_ledger registries.now registry_count rows.now row_count) out.old }
{
    let ok = sound(registries, registry_count, rows, row_count);
    let first = registries_size(registries, registry_count);
    let size = writing(ok, first, row_count, out.len())?;
    write_registries(registries, registry_count, out);
    write_rows(rows, row_count, &mut out[first..]);
    Ok(size)
}
