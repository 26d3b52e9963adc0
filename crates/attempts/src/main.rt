// Makes the attempts of its standard input against a ledger that starts empty, and prints a line for each, then what is held (docs/RULES.md,
// "What the program prints"). The input may be of any length, so one attempt is held at a time. What the pieces of the input mean, what an
// attempt comes to and how a line is written are functions of other crates. `answer_all` calls them, between reading and writing, and is
// proved of any reader and writer whose bytes are known; of the standard streams no more is known than that these are their bytes.
#![tactic(auto)]

mod line;

ghost use Rattle.std.specs.Prelude.{◌≡◌, ◌-◌, ◌≤◌, [], cond, length, unwrap_or, IfOk, IfSome, OnOk};
ghost use Rattle.std.specs.Io.KnownBytes.{Appends};
ghost use Rattle.reading.specs.Fronts.{Takes};
ghost use Rattle.ledger_table.specs.Tables.{view_ledger};
ghost use Rattle.ledger_text.specs.Lines.{last_line, broken_line};
ghost use Rattle.ledger_frames.specs.Runs.{start_of, size_of};
ghost use Rattle.attempts.specs.Answering.{next_of, line_of, output_of};

use ledger_frames::Run;
use ledger_frames::framing::read_size;
use ledger_table::Ledger;
use ledger_text::text::write_last;
use line::answer_attempt;
use reading::{read_full, read_part};
use std::io;
use std::io::{Read, Write};

// The input's count of attempts.
fn read_count<R: Read>(reader: &mut R) -> io::Result<Run>
    ensures { IfOk result (λ run. Takes (R.remaining reader.old) (R.remaining reader.new) 2 (λ bytes. run ≡ start_of bytes)) }
{
    let mut bytes = [0u8; 2];
    let n = read_full(reader, &mut bytes)?;
    Ok(Run::start(&bytes[..n]))
}

// The length of the next attempt, or none where its bytes are not there.
fn read_length<R: Read>(reader: &mut R) -> io::Result<Option<usize>>
    ensures value { IfOk result (λ length. Takes (R.remaining reader.old) (R.remaining reader.new) 2 (λ bytes. length ≡ size_of bytes)) }
    ensures upper_bound { IfOk result (λ length. unwrap_or length 0 ≤ 65535) }
{
    let mut bytes = [0u8; 2];
    let n = read_full(reader, &mut bytes)?;
    Ok(read_size(&bytes[..n]))
}

// How many bytes follow the last attempt, of which one is enough to tell.
fn read_more<R: Read>(reader: &mut R) -> io::Result<usize>
    ensures { IfOk result (λ more. Takes (R.remaining reader.old) (R.remaining reader.new) 1 (λ bytes. more ≡ length bytes)) }
{
    let mut byte = [0u8; 1];
    read_full(reader, &mut byte)
}

// An attempt that is there whole is answered, and its line printed. Of any other nothing is printed, and the ledger is as it was.
fn print_attempt<W: Write>(
    writer: &mut W,
    ledger: Ledger,
    run: Run,
    attempt: &[u8],
) -> io::Result<Ledger>
    ensures ledger { IfOk result (λ l. view_ledger l ≡ cond run.broken (view_ledger ledger) (next_of (view_ledger ledger) attempt.now)) }
    ensures line { OnOk result (Appends (W.contents writer.old) (W.contents writer.new)
        (cond run.broken [] (line_of (view_ledger ledger) (run.count - run.left) attempt.now))) }
{
    if run.broken {
        return Ok(ledger);
    }
    let mut out = [0u8; 32];
    let answered = answer_attempt(ledger, run.position(), attempt, &mut out);
    writer.write_all(&out[..answered.size])?;
    Ok(answered.ledger)
}

// What is held at the end are counts, up to 16 registries and 256 credentials.
fn print_last<W: Write>(
    writer: &mut W,
    broken: bool,
    registries: usize,
    credentials: usize,
) -> io::Result<()>
    ensures { OnOk result (Appends (W.contents writer.old) (W.contents writer.new) (cond broken broken_line (last_line registries credentials))) }
{
    let mut out = [0u8; 80];
    let n = write_last(&mut out, broken, registries, credentials);
    writer.write_all(&out[..n])
}

// What is printed is what the program has to print for the bytes of its input. A read or a write that fails ends the run there.
fn answer_all<R: Read, W: Write>(reader: &mut R, writer: &mut W) -> io::Result<()>
    ensures { OnOk result (IfSome (R.remaining reader.old) (λ input. Appends (W.contents writer.old) (W.contents writer.new) (output_of input))) }
{
    let mut buffer = [0u8; 65536];
    let mut ledger = Ledger::empty();
    let mut run = read_count(reader)?;
    // No index is counted here, so no `for` fits: the run says whether an attempt is still to come, and none is behind a broken one.
    while run.wants() {
        let length = read_length(reader)?;
        let attempt = read_part(reader, &mut buffer, length.unwrap_or(0))?;
        run = run.took(length, attempt.len());
        ledger = print_attempt(writer, ledger, run, attempt)?;
    }
    let end = run.finish(read_more(reader)?);
    print_last(writer, end.broken, ledger.registry_count, ledger.row_count)
}

fn main(rt: HostRuntime) -> io::Result<()> {
    answer_all(&mut rt.stdin(), &mut rt.stdout())
}
