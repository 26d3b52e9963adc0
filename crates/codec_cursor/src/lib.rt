// A cursor over lent bytes, by which the layouts are read (docs/RULES.md, "Bytes").
#![tactic(auto)]

ghost use Rattle.std.specs.Prelude.{◌≡◌};
ghost use Rattle.codec_cursor.specs.Readers.{starting, advanced, need, read_byte, read_said, read_prefix, read_identifier, read_number, read_quad, counted, letter_only};

pub use cesr::{BasicPrefix, Matter, Said};
use cesr_number::number::{has_room, read_u8, read_u32};
pub use cesr_sn::Sn;

#[derive(Clone, Copy)]
pub struct Cursor {
    pub ok: bool,
    pub at: usize,
}

// What reading gives: a value, and the cursor behind it.
#[derive(Clone, Copy)]
pub struct Read<T> {
    pub value: T,
    pub next: Cursor,
}

impl Cursor {
    // At the start of the bytes.
    pub fn start() -> Cursor
        ensures { result ≡ starting }
    {
        Cursor { ok: true, at: 0 }
    }

    // Past n bytes, or stopped where they are not all there.
    pub fn advance(self, s: &[u8], n: usize) -> Cursor
        ensures { result ≡ advanced s.now self n }
    {
        let at = self.at;
        if self.ok & has_room(s.len(), at, n) {
            return Cursor {
                ok: true,
                at: at + n,
            };
        }
        Cursor { ok: false, at: 0 }
    }

    // Stopped where the test fails.
    #[tactic(auto, unfolding(crate::specs::Readers::need))]
    pub fn expect_that(self, test: bool) -> Cursor
        ensures { result ≡ need self test }
    {
        if test {
            return self;
        }
        Cursor { ok: false, at: 0 }
    }

    #[tactic(auto, unfolding(crate::specs::Readers::read_byte))]
    pub fn byte(self, s: &[u8]) -> Read<u8>
        ensures { result ≡ read_byte s.now self }
    {
        let value = read_u8(s, self.at);
        let next = self.advance(s, 1);
        Read { value, next }
    }

    // A count byte that has to be n.
    #[tactic(auto, unfolding(crate::specs::Readers::counted))]
    pub fn count(self, s: &[u8], n: u8) -> Cursor
        ensures { result ≡ counted n s.now self }
    {
        let b = self.byte(s);
        b.next.expect_that(b.value == n)
    }

    #[tactic(auto, unfolding(crate::specs::Readers::read_quad))]
    pub fn quad(self, s: &[u8]) -> Read<u32>
        ensures { result ≡ read_quad s.now self }
    {
        let value = read_u32(s, self.at);
        let next = self.advance(s, 4);
        Read { value, next }
    }

    #[tactic(auto, unfolding(crate::specs::Readers::read_number))]
    pub fn sn(self, s: &[u8]) -> Read<Sn>
        ensures { result ≡ read_number s.now self }
    {
        let value = Sn::read(s, self.at);
        let next = self.advance(s, 16);
        Read { value, next }
    }

    #[tactic(auto, unfolding(crate::specs::Readers::read_said, crate::specs::Readers::read_if))]
    pub fn said(self, s: &[u8]) -> Read<Said>
        ensures { result ≡ read_said s.now self }
    {
        let m = Matter::read(s, self.at);
        let next = self.advance(s, 33).expect_that(m.is_said());
        Read {
            value: Said(m),
            next,
        }
    }

    #[tactic(auto, unfolding(crate::specs::Readers::read_prefix, crate::specs::Readers::read_if))]
    pub fn prefix(self, s: &[u8]) -> Read<BasicPrefix>
        ensures { result ≡ read_prefix s.now self }
    {
        let m = Matter::read(s, self.at);
        let next = self.advance(s, 33).expect_that(m.is_basic());
        Read {
            value: BasicPrefix(m),
            next,
        }
    }

    #[tactic(auto, unfolding(crate::specs::Readers::read_identifier, crate::specs::Readers::read_if, crate::specs::Readers::is_identifier))]
    pub fn identifier(self, s: &[u8]) -> Read<Matter>
        ensures { result ≡ read_identifier s.now self }
    {
        let value = Matter::read(s, self.at);
        let next = self
            .advance(s, 33)
            .expect_that(value.is_basic() | value.is_said());
        Read { value, next }
    }

    // Behind a digest whose bytes are not wanted: only its letter is looked at.
    pub fn pass_said(self, s: &[u8]) -> Cursor
        ensures { result ≡ (read_said s.now self).next }
    {
        let letter = lettered(read_u8(s, self.at));
        self.advance(s, 33).expect_that(letter.is_said())
    }

    // Behind a prefix, in the same way.
    pub fn pass_prefix(self, s: &[u8]) -> Cursor
        ensures { result ≡ (read_prefix s.now self).next }
    {
        let letter = lettered(read_u8(s, self.at));
        self.advance(s, 33).expect_that(letter.is_basic())
    }

    // Behind an identifier, in the same way.
    pub fn pass_identifier(self, s: &[u8]) -> Cursor
        ensures { result ≡ (read_identifier s.now self).next }
    {
        let letter = lettered(read_u8(s, self.at));
        self.advance(s, 33)
            .expect_that(letter.is_basic() | letter.is_said())
    }
}

// A primitive of this letter, which is asked for its role.
fn lettered(code: u8) -> Matter
    ensures { result ≡ letter_only code }
{
    Matter {
        code: code as u64,
        w0: 0,
        w1: 0,
        w2: 0,
        w3: 0,
    }
}
