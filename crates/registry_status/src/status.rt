// The input of `status`, in bytes (docs/RULES.md, "Bytes").
ghost use Rattle.std.specs.Prelude.{◌≡◌, option_map};
ghost use Rattle.codec_cursor.specs.Readers.{viewed, count_up_to};
ghost use Rattle.registry_status.specs.Statuses.{IsOptional, read_reference, read_status, decode_status, view_status};

use crate::{Reference, StatusInput};
use cesr::Said;
use codec::section::count_up_to;
use codec_cursor::{Cursor, Read};
use registry_state::RegistryState;
use registry_state_credential::CredentialState;

impl StatusInput {
    // Nothing may follow the third section.
    #[tactic(auto, unfolding(crate::specs::Statuses::decode_status))]
    pub fn decode(s: &[u8]) -> Option<StatusInput>
        ensures { option_map view_status result ≡ decode_status s.now }
    {
        let r = read_status(Cursor::start(), s);
        if r.next.ok & (r.next.at == s.len()) {
            return Some(r.value);
        }
        None
    }
}

fn read_status(c: Cursor, s: &[u8]) -> Read<StatusInput>
    ensures { viewed view_status result ≡ read_status s.now c }
{
    let said = c.said(s);
    let issuer = said.next.identifier(s);
    let about = read_reference(issuer.next, s);
    let known = read_optional(about.next, s, RegistryState::read);
    let held = read_optional(known.next, s, CredentialState::read);
    let given = read_optional(held.next, s, Cursor::identifier);
    Read {
        value: StatusInput {
            said: said.value,
            issuer: issuer.value,
            reference: about.value,
            registry: known.value,
            credential: held.value,
            prefix: given.value,
        },
        next: given.next,
    }
}

// The byte about a credential's registry, and the digest behind a 1.
#[tactic(auto, unfolding(crate::specs::Statuses::read_reference, codec_cursor::specs::Readers::need))]
fn read_reference(c: Cursor, s: &[u8]) -> Read<Reference>
    ensures { result ≡ read_reference s.now c }
{
    let b = c.byte(s);
    if b.value == 1 {
        let d = b.next.said(s);
        return Read {
            value: Reference::Named(d.value),
            next: d.next,
        };
    }
    if b.value == 2 {
        return Read {
            value: Reference::Block,
            next: b.next,
        };
    }
    Read {
        value: Reference::Unnamed,
        next: b.next.expect_that(b.value == 0),
    }
}

// A section of at most one element: a count byte, 0 or 1, then what is counted.
fn read_optional<T, F: FnOnce(Cursor, &[u8]) -> Read<T>>(
    c: Cursor,
    s: &[u8],
    read: F,
) -> Read<Option<T>>
    requires { F.IsAlwaysCallable read }
    ensures { let n = count_up_to 1 s.now c in IsOptional n (λ r. F.post read n.next s.entry r) result }
{
    let n = count_up_to(c, s, 1);
    if n.value == 0 {
        return Read {
            value: None,
            next: n.next,
        };
    }
    let r = read(n.next, s);
    Read {
        value: Some(r.value),
        next: r.next,
    }
}
