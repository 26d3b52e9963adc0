// Credential rows behind a slice of states. These functions find a key, read a row and store a row; beside them only the check of all rows and the image reach into the slice.
ghost use Rattle.std.specs.Prelude.{◌≡◌, length, set, take, position, slice_get};
ghost use Rattle.cesr.specs.Primitives.{eq_matter};
ghost use Rattle.ledger_rows.specs.Rows.{row_at, has_key, find_at};

use cesr::{Matter, Said};
use ledger_step::slices::in_use;
use registry_state_credential::CredentialState;

// The row at a place; past the end there is no credential.
pub fn read_row(rows: &[CredentialState], at: usize) -> CredentialState
    ensures { result ≡ row_at rows.now at }
{
    rows.get(at).copied().unwrap_or(CredentialState::none())
}

// The row at a place among the first `count`; none where there are not so many.
pub fn used_row(rows: &[CredentialState], count: usize, at: usize) -> Option<CredentialState>
    ensures { result ≡ slice_get (take count rows.now) at }
{
    if at < in_use(rows, count).len() {
        return Some(read_row(rows, at));
    }
    None
}

// The row is stored at a place; past the end nothing is. With `get_mut` the proof does not close.
pub fn store_row(rows: &mut [CredentialState], at: usize, w: CredentialState)
    ensures { rows.new ≡ set rows.old at w }
{
    if at < rows.len() {
        rows[at] = w;
    }
}

// All words at once, without a branch. The derived `==` has one at each word, and where many rows share the first words of a key the search for it takes twice as long by that.
#[tactic(auto, unfolding(cesr::specs::Primitives::eq_matter))]
fn same_words(a: &Matter, b: &Matter) -> bool
    ensures { result ≡ eq_matter a.now b.now }
{
    let last = (a.w2 == b.w2) & (a.w3 == b.w3);
    (a.code == b.code) & ((a.w0 == b.w0) & ((a.w1 == b.w1) & last))
}

// Most rows differ from a key in the first word of the credential, so that is looked at first.
#[tactic(auto, unfolding(cesr::specs::Primitives::eq_matter))]
fn has_key(w: &CredentialState, registry: Said, credential: Said) -> bool
    ensures { result ≡ has_key w.now registry credential }
{
    w.credential.0.w0 == credential.0.w0
        && (same_words(&w.credential.0, &credential.0) && w.registry == registry)
}

fn position(rows: &[CredentialState], registry: Said, credential: Said) -> Option<usize>
    ensures { result ≡ position (λ w. has_key w registry credential) rows.now }
{
    rows.iter().position(|w| has_key(w, registry, credential))
}

// The first place among the first `count` rows whose row has the key. Where there is none it answers how many these rows are: the count, or the slice's length where that is less. There a new row has its place.
pub fn find_at(rows: &[CredentialState], count: usize, registry: Said, credential: Said) -> usize
    ensures { result ≡ find_at rows.now count registry credential }
{
    let used = in_use(rows, count);
    position(used, registry, credential).unwrap_or(used.len())
}
