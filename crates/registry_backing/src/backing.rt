// The rules on the backers and the toad of an authority, and its receipts (docs/RULES.md, "Receipts").
ghost use Rattle.std.specs.Prelude.{min, ◌≡◌, List};
ghost use Rattle.cesr.specs.declared.BasicPrefix.{BasicPrefix};
ghost use Rattle.events.specs.Members.{view};
ghost use Rattle.codec.specs.TelEvents.{members_in};
ghost use Rattle.registry_verification.specs.SignatureSections.{signatures_in};
ghost use Rattle.registry_backing.specs.Backings.{enough_receipts, backed_by, Backs, own_among};

use codec::Listed;
use codec::section::at_most_16;
use events::{Broken, Members};
use events_toad::Toad;
use registry_answer::answer::accept_if;
use registry_error::{Answer, RegistryRejection};
use registry_rotation::{InBytes, check_members};
use registry_verification::Counted;
use registry_verification::verification::valid_receipts;

// Whether a toad is met by the good signatures of so many backers, the first 16 of them.
pub fn enough_receipts(s: &[u8], signatures: Counted, backers: usize, toad: Toad) -> Answer
    ensures { result ≡ enough_receipts toad.0 (min backers 16) (signatures_in s.now signatures) }
{
    let valid = valid_receipts(s, signatures, backers);
    let required = toad.value();
    let enough = required as usize <= valid;
    accept_if(
        enough,
        RegistryRejection::MissingBackerReceipts { valid, required },
    )
}

// The rules on backers and toad, and the receipts. Of the backers it is known only whether one stands twice, and how many there are: no rule looks at more of them.
fn backed_by(
    s: &[u8],
    signatures: Counted,
    repeat: Result<(), Broken>,
    count: usize,
    toad: Toad,
) -> Answer
    ensures { (l : List BasicPrefix) → Backs repeat count l → result ≡ backed_by toad.0 l (signatures_in s.now signatures) }
{
    repeat?;
    if !toad.is_exact(count) {
        return Err(RegistryRejection::BackerThreshold);
    }
    enough_receipts(s, signatures, count, toad)
}

// The same of backers that stand in bytes.
pub fn backed_in(s: &[u8], signatures: Counted, held: &[u8], backers: Listed, toad: Toad) -> Answer
    ensures { result ≡ backed_by toad.0 (members_in held.now backers) (signatures_in s.now signatures) }
{
    let repeat = check_members(InBytes {
        bytes: held,
        list: backers,
    });
    let count = at_most_16(backers.count);
    backed_by(s, signatures, repeat, count, toad)
}

// The rules on the registry's own backers, with the signatures that they are asked about, over the bytes that its state is held in.
pub fn own_in(own: Option<Counted>, s: &[u8], held: &[u8], backers: Listed, toad: Toad) -> Answer
    ensures { result ≡ own_among toad.0 (members_in held.now backers) s.now own }
{
    if let Some(signatures) = own {
        return backed_in(s, signatures, held, backers, toad);
    }
    Ok(())
}

// The same of a list.
pub fn own_of(own: Option<Counted>, s: &[u8], backers: &Members, toad: Toad) -> Answer
    ensures { result ≡ own_among toad.0 (view backers.now) s.now own }
{
    match own {
        Some(signatures) => {
            let repeat = check_members(backers.as_slice());
            let count = backers.size();
            backed_by(s, signatures, repeat, count, toad)
        }
        None => Ok(()),
    }
}
