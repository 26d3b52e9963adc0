// A ledger that a host lends as one block, made empty (docs/RULES.md, "Ledger", "Host's calls").
ghost use Rattle.std.specs.Prelude.{◌≡◌, []};
ghost use Rattle.ledger_image.specs.Images.{ledger_of};
ghost use Rattle.ledger_table.specs.Tables.{view_ledger};

use host_empty::empty::empty;
use ledger_table::Ledger;

#[unsafe(no_mangle)]
pub extern "C" fn jamfell_empty(ledger: &mut Ledger)
    ensures { view_ledger ledger.new ≡ ledger_of [] [] }
{
    empty(ledger)
}
