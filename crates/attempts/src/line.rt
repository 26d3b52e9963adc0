// What is printed of an attempt, and the ledger behind it (docs/RULES.md, "What the program prints").
ghost use Rattle.std.specs.Prelude.{◌≡◌, ◌≤◌, length};
ghost use Rattle.laws.specs.Room.{put};
ghost use Rattle.registry_error.specs.Errors.{answer_number, answer_letter};
ghost use Rattle.ledger_table.specs.Tables.{view_ledger};
ghost use Rattle.ledger_text.specs.Lines.{size_in};
ghost use Rattle.attempts.specs.Answering.{line_of, next_of};

use ledger::ledger::apply;
use ledger_table::Ledger;
use ledger_text::text::write_line;
use registry_error::Answer;

// An acceptance is 0. A Result has no numbers of its own, so none is derived.
fn number(answer: Answer) -> u8
    ensures { result ≡ answer_number answer }
{
    match answer {
        Ok(()) => 0,
        Err(r) => r.number(),
    }
}

fn letter(answer: Answer) -> u8
    ensures { result ≡ answer_letter answer }
{
    match answer {
        Ok(()) => b'A',
        Err(r) => {
            let d = r.disposition();
            d.letter()
        }
    }
}

// How many bytes its line has, and the ledger that the attempt leaves.
#[derive(Clone, Copy)]
pub struct Answered {
    pub size: usize,
    pub ledger: Ledger,
}

// The line goes to the start of the buffer, where it has room; 27 bytes are room for any.
pub(crate) fn answer_attempt(
    ledger: Ledger,
    position: u64,
    attempt: &[u8],
    out: &mut [u8],
) -> Answered
    ensures line { out.new ≡ put out.old 0 (line_of (view_ledger ledger) position attempt.now) }
    ensures size { result.size ≡ size_in out.old (line_of (view_ledger ledger) position attempt.now) }
    ensures ledger { view_ledger result.ledger ≡ next_of (view_ledger ledger) attempt.now }
    ensures within { result.size ≤ length out.new }
    ensures short { length (line_of (view_ledger ledger) position attempt.now) ≤ 27 }
{
    let mut next = ledger;
    let answer = apply(&mut next, attempt);
    let size = write_line(out, position, number(answer), letter(answer));
    Answered { size, ledger: next }
}
