// The check of all rows that are lent (docs/RULES.md, "Reading rules").
ghost use Rattle.std.specs.Prelude.{◌≡◌, length, take};
ghost use Rattle.ledger_rows.specs.Ledgers.{holds, row_rules};

use ledger_row_rules::marks::Marks;
use ledger_row_rules::rules::row_sound;
use ledger_rows::rows::find_at;
use registry_state_credential::CredentialState;

// Whether the rows keep to all the reading rules that need no registry. There are 256, and at most so many of them are in use. Each of these is sound by itself, and its key is first found at no place before it.
pub fn rows_sound(rows: &[CredentialState], count: usize) -> bool
    ensures { result ≡ holds (row_rules (length rows.now) count (take count rows.now)) }
{
    if rows.len() != 256 || count > 256 {
        return false;
    }
    let mut marks = Marks::none();
    for i in 0..count {
        let row = rows[i];
        let searched = marks.mark(row.credential, i);
        let found = find_at(rows, searched, row.registry, row.credential);
        if !row_sound(row) || found < searched {
            return false;
        }
    }
    true
}
