// Credential rows behind a slice, written to the bytes of an image and stored from them, one row in each turn of a loop.
ghost use Rattle.std.specs.Prelude.{◌≡◌};
ghost use Rattle.std.proofs.lemmas.List.Edits.{sets};
ghost use Rattle.ledger_sections.specs.RowImages.{written_rows, rows_from};

use codec_cursor::Cursor;
use ledger_image::image::write_count;
use ledger_rows::rows::store_row;
use ledger_sections::rows::section_fits;
use registry_state_credential::CredentialState;

// The count and the first `count` rows, from the buffer's start. Where there are not so many rows, or no room for all their bytes, nothing is written.
pub fn write_rows(rows: &[CredentialState], count: usize, out: &mut [u8])
    ensures { out.new ≡ written_rows rows.now count out.old }
{
    if !section_fits(count, rows.len(), out.len()) {
        return;
    }
    write_count(out, 0, count);
    for i in 0..count {
        let row = rows[i];
        row.write(out, 2 + 115 * i);
    }
}

// The `count` rows that are read from the bytes from `at` are stored from the first place on; the others stay. Past the end of the slice nothing is stored.
pub fn store_rows(image: &[u8], at: usize, count: usize, rows: &mut [CredentialState])
    ensures { rows.new ≡ sets rows.old 0 (rows_from image.now at count) }
{
    let mut c = Cursor { ok: true, at };
    for i in 0..count {
        let read = CredentialState::read(c, image);
        store_row(rows, i, read.value);
        c = read.next;
    }
}
