// What comes of an image, and whether a record expects it.
ghost use Rattle.std.specs.Prelude.{◌≡◌, ℕ, List, eqb};
ghost use Rattle.ledger_step.specs.Refusals.{refusal_of};
ghost use Rattle.ledger_standing.specs.Lookups.{view_looked_up};
ghost use Rattle.ledger_image.specs.Images.{image_of, written_of};
ghost use Rattle.ledger_written.specs.Writes.{view_written};
ghost use Rattle.ledger_table.specs.Tables.{view_ledger, ledger_after};
ghost use Rattle.images.specs.Judgement.{digest_of, stored_of, refused_short, short_of, key_in, view_facts, facts_of, agrees_of};

use cesr::{Matter, Said};
use cesr_number::number::{read_u8, read_u16, read_u32};
use ledger::Malformed;
use ledger::ledger::{look_up, read_image, write_image};
use ledger_standing::Standing;
use ledger_table::Ledger;
use ledger_written::WriteError;

#[derive(Clone, Copy)]
pub struct Facts {
    // What reading answers.
    pub read: Result<(), Malformed>,
    // How many are held then. They are counts, up to 16 and 256, as a record has them.
    pub registries: usize,
    pub rows: usize,
    // The image that is written then.
    pub size: usize,
    pub digest: u64,
    // Whether a buffer that is a byte too short for it is refused with 30, and keeps its bytes.
    pub short: bool,
    // What the look-up answers.
    pub found: Result<Standing, Malformed>,
}

#[derive(Clone, Copy)]
pub struct Answered {
    pub facts: Facts,
    pub ledger: Ledger,
}

#[derive(Clone, Copy)]
struct Image {
    size: usize,
    digest: u64,
}

// The number of an answer that may have the refusal 1, as a record has it and a line prints it. A Result has no numbers of its own, so none is derived.
pub(crate) fn number<T>(answer: Result<T, Malformed>) -> u8
where
    T: Drop,
    ensures { result ≡ refusal_of answer }
{
    match answer {
        Ok(_) => 0,
        Err(_) => 1,
    }
}

// The number of a look-up's standing, as a record has it and a line prints it: 0 after a refusal, where there is none.
pub(crate) fn standing_number(answer: Result<Standing, Malformed>) -> u8
    ensures { result ≡ (view_looked_up answer).standing }
{
    match answer {
        Ok(s) => s.number(),
        Err(_) => 0,
    }
}

// What tells images apart. The modulus is a prime, so that a single changed byte always shows.
fn digest(s: &[u8]) -> u64
    ensures { result ≡ digest_of s.now }
{
    let mut c = 0;
    for byte in s {
        c = (c * 31 + u64::from(*byte) + 1) % 4294967291;
    }
    c
}

// The length and the digest of the image that the ledger writes. Of one that it refuses to write both are those of no bytes.
fn written(ledger: Ledger, out: &mut [u8]) -> Image
    ensures { result ≡ stored_of (written_of (view_ledger ledger) out.old) }
{
    let answer = write_image(&ledger, out);
    let size = answer.unwrap_or(0);
    let digest = digest(&out[..size]);
    Image { size, digest }
}

fn is_short_buffer(answer: Result<usize, WriteError>) -> bool
    ensures { (bytes : List ℕ) → result ≡ eqb (view_written answer bytes).number 30 }
{
    match answer {
        Ok(_) => false,
        Err(WriteError::Malformed) => false,
        Err(WriteError::ShortBuffer) => true,
    }
}

// Whether the buffer is refused with 30 and keeps its bytes.
fn refused_short(ledger: Ledger, out: &mut [u8]) -> bool
    ensures { result ≡ refused_short (view_ledger ledger) out.old }
{
    let before = digest(out);
    let answer = write_image(&ledger, out);
    is_short_buffer(answer) & (digest(out) == before)
}

// The same of the part of the buffer that is a byte too short for an image of this size.
fn is_short(ledger: Ledger, size: usize, out: &mut [u8]) -> bool
    ensures { result ≡ short_of (view_ledger ledger) size out.old }
{
    if size == 0 {
        return false;
    }
    if out.len() < size {
        return false;
    }
    let n = size - 1;
    refused_short(ledger, &mut out[..n])
}

// The image is read into the ledger. What is then held is written to `out`, and to a part of `other`, and asked for the record's key.
pub(crate) fn answer(
    ledger: Ledger,
    first: &[u8],
    image: &[u8],
    out: &mut [u8],
    other: &mut [u8],
) -> Answered
    ensures facts { view_facts result.facts ≡ facts_of (image_of image.now) (view_ledger ledger) (key_in first.now) out.old other.old }
    ensures ledger { view_ledger result.ledger ≡ ledger_after (image_of image.now) (view_ledger ledger) }
{
    let read = read_image(ledger, image);
    let held = read.unwrap_or(ledger);
    let w = written(held, out);
    let short = is_short(held, w.size, other);
    let registry = Said(Matter::read(first, 12));
    let credential = Said(Matter::read(first, 45));
    let found = look_up(&held, registry, credential);
    let facts = Facts {
        read: read.and(Ok(())),
        registries: held.registry_count,
        rows: held.row_count,
        size: w.size,
        digest: w.digest,
        short,
        found,
    };
    Answered {
        facts,
        ledger: held,
    }
}

// Whether the bytes before a record's key say the same.
pub(crate) fn agrees(f: Facts, first: &[u8]) -> bool
    ensures { result ≡ agrees_of (view_facts f) first.now }
{
    let read = number(f.read) == read_u8(first, 0);
    let registries = f.registries == read_u8(first, 1) as usize;
    let rows = f.rows == read_u16(first, 2) as usize;
    let size = f.size == read_u16(first, 4) as usize;
    let digest = f.digest == read_u32(first, 6) as u64;
    let refusal = number(f.found) == read_u8(first, 10);
    let standing = standing_number(f.found) == read_u8(first, 11);
    (read & (registries & rows)) & ((size & digest) & (f.short & (refusal & standing)))
}
