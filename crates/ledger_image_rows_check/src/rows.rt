// The rows of an image, each of 115 bytes: read where they stand, and held to the reading rules that speak of rows.
ghost use Rattle.std.specs.Prelude.{◌≡◌, ◌+◌, ◌*◌, ◌≤◌, length};
ghost use Rattle.ledger_image_ids.specs.Pairs.{key_of};
ghost use Rattle.ledger_image_ids.specs.Tables.{has};
ghost use Rattle.ledger_image_ids.specs.Ledgers.{eq_pair};
ghost use Rattle.ledger_image_ids.specs.IdLists.{view_ids};
ghost use Rattle.ledger_image_rows_check.specs.RowTests.{key_at, keys_from, row_passes, rows_pass, ends_there, rows_stand};
ghost use Rattle.ledger_image_rows_check.specs.Marks.{OthersDiffer};

use cesr::Matter;
use cesr_number::number::read_u64;
use cesr_sn::Sn;
use codec_cursor::Cursor;
use ledger_image_ids::Ids;
use registry_state_credential::CredentialState;

// Whether the row at a place has the key of another. Most rows differ in the first word of the credential, so that is looked at first.
fn same_key(s: &[u8], at: usize, w: CredentialState) -> bool
    requires { at + 115 ≤ length s.now }
    ensures { result ≡ eq_pair (key_at s.now at) (key_of w) }
{
    if read_u64(s, at + 34) != w.credential.0.w0 {
        return false;
    }
    (Matter::read(s, at) == w.registry.0) & (Matter::read(s, at + 33) == w.credential.0)
}

// Whether the key is that of one of the n rows that stand from a place on.
fn has_key(s: &[u8], at: usize, n: usize, w: CredentialState) -> bool
    requires { at + 115 * n ≤ length s.now }
    ensures { result ≡ has eq_pair (key_of w) (keys_from s.now at n) }
{
    let mut found = false;
    for i in 0..n {
        found = found | same_key(s, at + 115 * i, w);
    }
    found
}

// A row passes where its letters are right, its registry is held, its sn is 0 or 1, and its key is that of none before it. Only the first n before it are looked at: the caller knows that the others differ.
fn row_passes(s: &[u8], at: usize, i: usize, ids: &Ids, n: usize) -> bool
    requires { (at + 115 * i + 115 ≤ length s.now) × OthersDiffer s.now at i n }
    ensures { result ≡ row_passes s.now at (view_ids ids.now) i }
{
    let place = Cursor {
        ok: true,
        at: at + 115 * i,
    };
    let row = CredentialState::read(place, s);
    let two = Sn { hi: 0, lo: 2 };
    let low = row.value.sn < two;
    let home = ids.contains(row.value.registry);
    row.next.ok & (home & (low & !has_key(s, at, n, row.value)))
}

// Whether each of the n rows that stand from a place on passes. For each remainder of a first word it is kept how many rows stand up to the last that has it: only they can have the key of a row with that remainder.
fn rows_pass(s: &[u8], at: usize, n: usize, ids: &Ids) -> bool
    requires { at + 115 * n ≤ length s.now }
    ensures { result ≡ rows_pass s.now at (view_ids ids.now) n }
{
    let mut marks = [0usize; 1024];
    let mut ok = true;
    for i in 0..n {
        let slot = (read_u64(s, at + 115 * i + 34) % 1024) as usize;
        ok = ok & row_passes(s, at, i, ids, marks[slot]);
        marks[slot] = i + 1;
    }
    ok
}

// Whether n rows, at most 256, stand from a place on and end where the bytes end.
fn ends_there(len: usize, at: usize, n: usize) -> bool
    ensures { result ≡ ends_there len at n }
{
    n <= 256 && at <= len && 115 * n == len - at
}

// The rows of an image: n from a place on, behind registries with these ids.
pub fn check_rows(s: &[u8], at: usize, n: usize, ids: &Ids) -> bool
    ensures { result ≡ rows_stand s.now at (view_ids ids.now) n }
{
    ends_there(s.len(), at, n) && rows_pass(s, at, n, ids)
}
