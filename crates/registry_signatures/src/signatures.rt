// The signatures of an attempt, section 9 (docs/RULES.md, "Bytes").
ghost use Rattle.std.specs.Prelude.{◌≡◌};
ghost use Rattle.registry_signatures.specs.SignatureSections.{read_signature, passed_signatures};

use crate::{Counted, Signature};
use codec::section::count_up_to;
use codec::{Cursor, Read};

pub fn read_signature(c: Cursor, s: &[u8]) -> Read<Signature>
    ensures { result ≡ read_signature s.now c }
{
    let i = c.quad(s);
    let v = i.next.byte(s);
    let verdict = v.value;
    let next = v.next.expect_that(verdict <= 1);
    let index = i.value;
    let value = Signature { index, verdict };
    Read { value, next }
}

// Behind a section of at most 64 signatures, each held to its layout. They stay in the bytes.
pub fn pass_signatures(c: Cursor, s: &[u8]) -> Read<Counted>
    ensures { result ≡ passed_signatures s.now c }
{
    let n = count_up_to(c, s, 64);
    let count = n.value;
    let from = n.next.at;
    let mut next = n.next;
    for _i in 0..count {
        let signature = read_signature(next, s);
        next = signature.next;
    }
    Read {
        value: Counted { from, count },
        next,
    }
}
