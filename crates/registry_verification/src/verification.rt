// Receipts of backers (docs/RULES.md, "Receipts"). Verifying a signature is the caller's; an attempt has the verdicts.
ghost use Rattle.std.specs.Prelude.{◌≡◌, min};
ghost use Rattle.registry_signatures.specs.SignatureSections.{signatures_in};
ghost use Rattle.registry_verification.specs.Receipts.{receipts};

use codec::section::at_most_16;
use codec_cursor::Cursor;
use registry_signatures::Counted;
use registry_signatures::signatures::read_signature;

// How many of so many backers have a good signature. Each backer has a mark, so no signature is looked back at: there are 16 marks, and no backer past them is looked at. The marks are set where they stand, since an array that is handed on is copied.
pub fn valid_receipts(s: &[u8], signatures: Counted, backers: usize) -> usize
    ensures { result ≡ receipts (min backers 16) (signatures_in s.now signatures) }
{
    let n = at_most_16(backers);
    let mut c = Cursor {
        ok: true,
        at: signatures.from,
    };
    let mut seen = [false; 16];
    let mut valid: usize = 0;
    for _i in 0..signatures.count {
        let x = read_signature(c, s);
        let signature = x.value;
        let at = signature.index as usize;
        let good = (at < n) & (signature.verdict == 1);
        c = x.next;
        if good && !seen[at] {
            seen[at] = true;
            valid += 1;
        }
    }
    valid
}
