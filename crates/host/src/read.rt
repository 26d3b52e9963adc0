// An image, read into a ledger that a host lends as one block (docs/RULES.md, "Image", "Host's calls"). Both arrays are lent on where they lie, so nothing of the table is copied.
ghost use Rattle.std.specs.Prelude.{◌≡◌};
ghost use Rattle.ledger_step.specs.Refusals.{refusal_of};
ghost use Rattle.ledger_image.specs.Images.{image_of, image_number};
ghost use Rattle.ledger_image.specs.Images.ImageAnswer.{refused};
ghost use Rattle.ledger_table.specs.Tables.{view_ledger, ledger_after};
ghost use Rattle.host_ledger.specs.LedgerCalls.{read_report};

use host_ledger::report::report_read;
use ledger_read::Malformed;
use ledger_read::read::read_image;
use ledger_table::Ledger;

// The block holds what the image has. After a refusal it is as it was, whatever stands in it.
fn read_into(ledger: &mut Ledger, image: &[u8]) -> Result<(), Malformed>
    ensures number { refusal_of result ≡ image_number (image_of image.now) }
    ensures ledger { view_ledger ledger.new ≡ ledger_after (image_of image.now) (view_ledger ledger.old) }
    ensures kept { image_of image.now ≡ refused → ledger.new ≡ ledger.old }
{
    let read = read_image(image, &mut ledger.registries, &mut ledger.rows)?;
    ledger.registry_count = read.registry_count;
    ledger.row_count = read.row_count;
    Ok(())
}

// After a refusal the block is as it was, whatever stands in it.
#[unsafe(no_mangle)]
pub extern "C" fn jamfell_read_image(ledger: &mut Ledger, image: &[u8], report: &mut [u8; 36]) -> u8
    ensures number { result ≡ image_number (image_of image.now) }
    ensures report { report.new ≡ read_report (image_number (image_of image.now)) }
    ensures ledger { view_ledger ledger.new ≡ ledger_after (image_of image.now) (view_ledger ledger.old) }
    ensures kept { image_of image.now ≡ refused → ledger.new ≡ ledger.old }
{
    report_read(read_into(ledger, image), report)
}
