// An event: its kind byte, then six sections by kind (docs/RULES.md, "Bytes"). The sections of a registry's events are read one crate below.
ghost use Rattle.std.specs.Prelude.{◌≡◌, cond};
ghost use Rattle.codec_cursor.specs.Readers.{counted, viewed};
ghost use Rattle.codec_tel_registry.specs.TelEvents.{view_event};
ghost use Rattle.codec_tel_registry.specs.Events.{read_iss, read_rev, read_bis, read_brv, read_event};

use codec_cursor::Cursor;
use codec_seal::seal::read_seal;
use codec_tel_registry::tel::{blank, read_vcp, read_vrt};
use codec_tel_registry::{Kind, Read, TelEvent};
use events_seal::Seal;

// Behind sections 2 to 5 with no elements.
fn pass_empty(c: Cursor, s: &[u8]) -> Cursor
    ensures { result ≡ counted 0 s.now (counted 0 s.now (counted 0 s.now (counted 0 s.now c))) }
{
    c.count(s, 0).count(s, 0).count(s, 0).count(s, 0)
}

fn read_iss(c: Cursor, s: &[u8]) -> Read<TelEvent>
    ensures { viewed (view_event s.now) result ≡ read_iss s.now c }
{
    let iss = c.count(s, 3);
    let credential = iss.pass_said(s);
    let registry = credential.pass_said(s);
    let next = pass_empty(registry.pass_said(s), s).count(s, 0);
    let mut value = blank(Kind::Iss, iss.at, Seal::Digest);
    value.credential = credential.at;
    value.registry = registry.at;
    Read { value, next }
}

fn read_rev(c: Cursor, s: &[u8]) -> Read<TelEvent>
    ensures { viewed (view_event s.now) result ≡ read_rev s.now c }
{
    let rev = c.count(s, 4);
    let credential = rev.pass_said(s);
    let registry = credential.pass_said(s);
    let prior = registry.pass_said(s);
    let next = pass_empty(prior.pass_said(s), s).count(s, 0);
    let mut value = blank(Kind::Rev, rev.at, Seal::Digest);
    value.credential = credential.at;
    value.registry = registry.at;
    value.prior = prior.at;
    Read { value, next }
}

// A bis or a brv. They differ in what the third digest is: the registry's, or the event's before it. Read in one place, the seal is made where the event has it; one that a function of its own hands to two others is copied, which takes longer than reading it.
fn read_backed(issues: bool, c: Cursor, s: &[u8]) -> Read<TelEvent>
    ensures { viewed (view_event s.now) result ≡ cond issues (read_bis s.now c) (read_brv s.now c) }
{
    let said = c.count(s, 3);
    let credential = said.pass_said(s);
    let third = credential.pass_said(s);
    let own = read_seal(pass_empty(third.pass_said(s), s).count(s, 1), s);
    let seal = own.value;
    let next = own.next;
    if issues {
        let mut value = blank(Kind::Bis, said.at, seal);
        value.credential = credential.at;
        value.registry = third.at;
        return Read { value, next };
    }
    let mut value = blank(Kind::Brv, said.at, seal);
    value.credential = credential.at;
    value.prior = third.at;
    Read { value, next }
}

// A kind byte that is not 1 to 6 is a fault.
pub fn read_event(c: Cursor, s: &[u8]) -> Read<TelEvent>
    ensures { viewed (view_event s.now) result ≡ read_event s.now c }
{
    let k = c.byte(s);
    let kind = k.value;
    match kind {
        1 => read_vcp(k.next, s),
        2 => read_vrt(k.next, s),
        3 => read_iss(k.next, s),
        4 => read_rev(k.next, s),
        5 => read_backed(true, k.next, s),
        _ => read_backed(false, k.next.expect_that(kind == 6), s),
    }
}
