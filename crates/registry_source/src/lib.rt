// The source that an attempt states (docs/RULES.md, "Bytes").
#![tactic(auto)]

ghost use Rattle.std.specs.Prelude.{◌≡◌};
ghost use Rattle.codec_cursor.specs.Readers.{section, viewed};
ghost use Rattle.registry_source.specs.Sources.{read_source, listed, sources_in};

use cesr::Said;
use cesr_sn::Sn;
use codec::section::count_up_to;
use codec_cursor::{Cursor, Read};

// The sn and the said of the anchoring event, as the attempt states them.
#[derive(Clone, Copy)]
pub struct Source {
    pub sn: Sn,
    pub said: Said,
}

impl Source {
    // The source that stands where the cursor is.
    pub fn read(c: Cursor, s: &[u8]) -> Source
        ensures { result ≡ (read_source s.now c).value }
    {
        let n = c.sn(s);
        let d = n.next.said(s);
        let sn = n.value;
        let said = d.value;
        Source { sn, said }
    }

    // The source of a section, where it has one.
    pub fn stated(source: Option<Cursor>, s: &[u8]) -> Option<Source>
        ensures { listed result ≡ sources_in s.now source }
    {
        match source {
            Some(c) => Some(Source::read(c, s)),
            None => None,
        }
    }

    // Behind it, where it keeps to its layout.
    fn pass(c: Cursor, s: &[u8]) -> Cursor
        ensures { result ≡ (read_source s.now c).next }
    {
        c.advance(s, 16).pass_said(s)
    }
}

// Behind section 7: at most one source, and its place.
pub fn pass_sources(c: Cursor, s: &[u8]) -> Read<Option<Cursor>>
    ensures { viewed (sources_in s.now) result ≡ section 1 read_source s.now c }
{
    let n = count_up_to(c, s, 1);
    let start = n.next;
    if n.value == 0 {
        return Read {
            value: None,
            next: start,
        };
    }
    Read {
        value: Some(start),
        next: Source::pass(start, s),
    }
}
