// Reports, written whole to a lent buffer of 36 bytes (docs/RULES.md, "Host's calls"). Each writer answers the number that it writes.
ghost use Rattle.std.specs.Prelude.{◌≡◌, [], ◌∷◌, ◌≤◌, length};
ghost use Rattle.std.proofs.lemmas.List.Edits.{sets};
ghost use Rattle.registry_error.specs.Errors.{number_of, answer_number};
ghost use Rattle.host_values.specs.ReportValues.{values_of};
ghost use Rattle.host_report.specs.Reports.{report_bytes, rejection_report, report_with, answer_report, sized_report, plain_report};

use host_values::{Values, awaited, details, small};
use registry_error::{Answer, RegistryRejection};

// The first four bytes.
fn put_marks(out: &mut [u8], number: u8, letter: u8, awaited: u8, count: u8)
    requires { 4 ≤ length out.old }
    ensures { out.new ≡ sets out.old 0 (number ∷ letter ∷ awaited ∷ count ∷ []) }
{
    out[0] = number;
    out[1] = letter;
    out[2] = awaited;
    out[3] = count;
}

// The number and the letter are bytes of the report's layout, which C reads, and so no enums.
pub fn write_report(
    number: u8,
    letter: u8,
    awaited: u8,
    values: Values,
    report: &mut [u8; 36],
) -> u8
    ensures { (result ≡ number) × (report.new ≡ report_bytes number letter awaited (values_of values)) }
{
    put_marks(report, number, letter, awaited, values.count());
    values.first().write(report, 4);
    values.second().write(report, 20);
    number
}

pub fn report_rejection(r: RegistryRejection, report: &mut [u8; 36]) -> u8
    ensures { (result ≡ number_of r) × (report.new ≡ rejection_report r) }
{
    let d = r.disposition();
    write_report(r.number(), d.letter(), awaited(d), details(r), report)
}

// After acceptance the values are the call's own, after a refusal its details.
pub fn report_with(answer: Answer, values: Values, report: &mut [u8; 36]) -> u8
    ensures { (result ≡ answer_number answer) × (report.new ≡ report_with answer (values_of values)) }
{
    match answer {
        Ok(()) => write_report(0, b'A', 0, values, report),
        Err(r) => report_rejection(r, report),
    }
}

pub fn report_answer(answer: Answer, report: &mut [u8; 36]) -> u8
    ensures { (result ≡ answer_number answer) × (report.new ≡ answer_report answer) }
{
    report_with(answer, Values::Nothing, report)
}

// The report of a fold that leaves a state of so many bytes.
pub fn report_sized(answer: Answer, size: usize, report: &mut [u8; 36]) -> u8
    ensures { (result ≡ answer_number answer) × (report.new ≡ sized_report answer size) }
{
    report_with(answer, Values::One(small(size as u64)), report)
}

// The report of a call whose refusals are all terminal and have no details: the values are those of an acceptance.
pub fn report_plain(number: u8, values: Values, report: &mut [u8; 36]) -> u8
    ensures { (result ≡ number) × (report.new ≡ plain_report number (values_of values)) }
{
    if number == 0 {
        return write_report(0, b'A', 0, values, report);
    }
    write_report(number, b'T', 0, Values::Nothing, report)
}
