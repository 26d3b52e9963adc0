// The image of a ledger that a host lends as one block (docs/RULES.md, "Host's calls", "Image"). Both arrays are lent on where they lie, so nothing of the table is copied.
ghost use Rattle.std.specs.Prelude.{◌≡◌};
ghost use Rattle.ledger_image.specs.Images.{written_of};
ghost use Rattle.ledger_table.specs.Tables.{view_ledger};
ghost use Rattle.host_ledger.specs.LedgerCalls.{image_report};

use host_ledger::report::report_written;
use ledger_table::Ledger;
use ledger_write::write::write_image;

// The image, from the buffer's start. After a refusal the buffer is as it was, and so are the bytes behind an image.
#[unsafe(no_mangle)]
pub extern "C" fn jamfell_write_image(ledger: &Ledger, out: &mut [u8], report: &mut [u8; 36]) -> u8
    ensures number { result ≡ (written_of (view_ledger ledger.now) out.old).number }
    ensures report { report.new ≡ image_report (written_of (view_ledger ledger.now) out.old) }
    ensures image { out.new ≡ (written_of (view_ledger ledger.now) out.old).bytes }
{
    let registry_count = ledger.registry_count;
    let row_count = ledger.row_count;
    let answer = write_image(
        &ledger.registries,
        registry_count,
        &ledger.rows,
        row_count,
        out,
    );
    report_written(answer, report)
}
