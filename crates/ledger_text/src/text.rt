// The program's lines (docs/RULES.md, "What the program prints"). A line is written at the start of a buffer, whole or not at all.
ghost use Rattle.std.specs.Prelude.{◌≡◌, cond, [], ◌∷◌, ◌++◌, ◌+◌, ◌<◌, ◌≤◌, length};
ghost use Rattle.std.proofs.lemmas.List.Edits.{sets};
ghost use Rattle.laws.specs.Room.{put};
ghost use Rattle.ledger_text.specs.Lines.{decimal, line_bytes, last_line, broken_line, size_in};

use cesr_number::number::has_room;

// How many decimal digits a number has.
fn places(n: u64) -> usize
    ensures value { result ≡ length (decimal n) }
    ensures upper_bound { result ≤ 20 }
{
    n.max(1).ilog10() as usize + 1
}

// The digits go in from the last one on.
fn put_decimal(out: &mut [u8], at: usize, k: usize, n: u64)
    requires k_value { k ≡ length (decimal n) }
    requires k_in_bounds { at + k ≤ length out.old }
    ensures { out.new ≡ sets out.old at (decimal n) }
{
    let mut rest = n;
    for i in (0..k).rev() {
        out[at + i] = b'0' + (rest % 10) as u8;
        rest /= 10;
    }
}

// A decimal, and the byte behind it.
#[tactic(auto, using(crate::proofs::LineLaws::number_put))]
fn put_number(out: &mut [u8], at: usize, k: usize, n: u64, end: u8)
    requires k_value { k ≡ length (decimal n) }
    requires k_in_bounds { at + k < length out.old }
    ensures { out.new ≡ sets out.old at (decimal n ++ (end ∷ [])) }
{
    put_decimal(out, at, k, n);
    out[at + k] = end;
}

// The end of an attempt's line.
fn put_end(out: &mut [u8], at: usize, letter: u8)
    requires { at + 2 ≤ length out.old }
    ensures { out.new ≡ sets out.old at (letter ∷ 10 ∷ []) }
{
    out[at] = letter;
    out[at + 1] = b'\n';
}

fn put_text(out: &mut [u8], at: usize, text: &[u8])
    requires { at + length text.now ≤ length out.old }
    ensures { out.new ≡ sets out.old at text.now }
{
    out[at..at + text.len()].copy_from_slice(text);
}

// An attempt's line. It answers the line's length, or 0 where the buffer is too short.
pub fn write_line(out: &mut [u8], position: u64, number: u8, letter: u8) -> usize
    ensures value { (result ≡ size_in out.old (line_bytes position number letter)) × (out.new ≡ put out.old 0 (line_bytes position number letter)) }
    ensures upper_bound { result ≤ length out.new }
{
    let p = places(position);
    let q = places(number as u64);
    let size = p + q + 4;
    if !has_room(out.len(), 0, size) {
        return 0;
    }
    put_number(out, 0, p, position, b' ');
    put_number(out, p + 1, q, number as u64, b' ');
    put_end(out, p + q + 2, letter);
    size
}

fn write_counts(out: &mut [u8], registries: usize, credentials: usize) -> usize
    ensures value { (result ≡ size_in out.old (last_line registries credentials)) × (out.new ≡ put out.old 0 (last_line registries credentials)) }
    ensures upper_bound { result ≤ length out.new }
{
    let p = places(registries as u64);
    let q = places(credentials as u64);
    let size = p + q + 25;
    if !has_room(out.len(), 0, size) {
        return 0;
    }
    put_text(out, 0, b"registries ");
    put_number(out, 11, p, registries as u64, b' ');
    put_text(out, p + 12, b"credentials ");
    put_number(out, p + 24, q, credentials as u64, b'\n');
    size
}

// The last line. It answers the line's length, or 0 where the buffer is too short.
pub fn write_last(out: &mut [u8], broken: bool, registries: usize, credentials: usize) -> usize
    ensures value { (result ≡ size_in out.old (cond broken broken_line (last_line registries credentials))) × (out.new ≡ put out.old 0 (cond broken broken_line (last_line registries credentials))) }
    ensures upper_bound { result ≤ length out.new }
{
    if !broken {
        return write_counts(out, registries, credentials);
    }
    if !has_room(out.len(), 0, 7) {
        return 0;
    }
    put_text(out, 0, b"broken\n");
    7
}
