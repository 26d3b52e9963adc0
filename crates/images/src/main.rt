// Reads stored images into one ledger (docs/RULES.md, "Image"), writes the ledger again, looks a key up, and says of each image what came
// of it, and whether that is what its record expects. The ledger is the one that the last record left, and an empty one at first.
//
// A record is 80 bytes and an image. The bytes: the number that is expected, how many registries (one byte) and rows (two) are held
// then, the length of the image that is written then (two) and its digest (four), the refusal and the standing of the look-up (one
// each), the key (two primitives), and the length of the image (two).
#![tactic(auto)]

mod answer;

ghost use Rattle.std.specs.Prelude.{◌≡◌, length};
ghost use Rattle.tally.specs.Counts.{counted_of};
ghost use Rattle.images.specs.Counting.{tests_of};

use answer::{Facts, agrees, answer, number, standing_number};
use cesr_number::number::read_u16;
use ledger_table::Ledger;
use reading::{Next, read_full, read_part};
use std::io;
use std::io::Read;
use tally::Count;

// A record's first bytes come to the first buffer, and its image to the second.
fn next_record<'a>(
    reader: &mut impl Read,
    first: &mut [u8; 80],
    buffer: &'a mut [u8],
) -> io::Result<Next<&'a [u8]>> {
    match read_full(reader, first)? {
        80 => {}
        0 => return Ok(Next::End),
        _ => return Ok(Next::Broken),
    }
    let length = usize::from(read_u16(first, 78));
    let image = read_part(reader, buffer, length)?;
    if image.len() < length {
        return Ok(Next::Broken);
    }
    Ok(Next::Record(image))
}

// A buffer for images that must not be written. None starts with this byte, so that one that is written shows.
fn other_buffer() -> [u8; 65536]
    ensures { 65536 ≡ length result }
{
    [255; 65536]
}

// A line for an image, as `3 0 3 4 929 0 1`: its position from 1, the number, what is held, the length, and the look-up's answer.
fn print_line(rt: &impl Print, position: u64, f: Facts, agrees: bool) -> io::Result<()> {
    let read = number(f.read);
    let refusal = number(f.found);
    let standing = standing_number(f.found);
    print!(rt;
        "{position} {read} {} {} {} {refusal} {standing}",
        f.registries, f.rows, f.size
    )?;
    if !agrees {
        print!(rt; " differs")?;
    }
    println!(rt)
}

// Counts an image, and that it came to what was expected.
fn count_image(images: &mut Count<1>, agrees: bool)
    ensures { images.new ≡ counted_of images.old (tests_of agrees) }
{
    images.count([agrees]);
}

// How many images there were and how many came to what was expected are counted. It answers whether the input ends behind a record.
// A loop has to end, and nothing says that the input does. So it has a number of turns that no run uses up.
fn run(rt: &impl Print, reader: &mut impl Read, images: &mut Count<1>) -> io::Result<bool> {
    let mut first = [0u8; 80];
    let mut buffer = [0u8; 65536];
    let mut out = [0u8; 65536];
    let mut other = other_buffer();
    let mut ledger = Ledger::empty();
    for _ in 0..u64::MAX {
        match next_record(reader, &mut first, &mut buffer)? {
            Next::Record(image) => {
                let a = answer(ledger, &first, image, &mut out, &mut other);
                let agrees = agrees(a.facts, &first);
                ledger = a.ledger;
                count_image(images, agrees);
                print_line(rt, images.all, a.facts, agrees)?;
            }
            Next::End => return Ok(true),
            Next::Broken => return Ok(false),
        }
    }
    Ok(false)
}

fn main(rt: HostRuntime) -> io::Result<()> {
    let mut images = Count::zero();
    let whole = run(&rt, &mut rt.stdin(), &mut images)?;
    let [agree] = images.held;
    print!(rt; "{} images, {agree} as expected", images.all)?;
    if !whole {
        print!(rt; " broken")?;
    }
    println!(rt)
}
