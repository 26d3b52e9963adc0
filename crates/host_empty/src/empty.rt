// A ledger that a host lends as one block, made empty (docs/RULES.md, "Ledger", "Host's calls").
ghost use Rattle.std.specs.Prelude.{◌≡◌, []};
ghost use Rattle.ledger_image.specs.Images.{ledger_of};
ghost use Rattle.ledger_table.specs.Tables.{view_ledger};

use ledger_table::Ledger;

// Only the counts are stored: what stands behind them is not of the ledger.
pub fn empty(ledger: &mut Ledger)
    ensures { view_ledger ledger.new ≡ ledger_of [] [] }
{
    // Not used: a body that only stores tells the check nothing of how long the arrays are.
    let _places = ledger.registries.len() + ledger.rows.len();
    ledger.registry_count = 0;
    ledger.row_count = 0;
}
