// A record's call is made again, and what comes out is held against what the record says.
ghost use Rattle.std.specs.Prelude.{◌≡◌};
ghost use Rattle.folds_judge.specs.Judgement.{parts, judge_status, call_of, judge_call, size_of, parts_of, judge_of};

use crate::credential_case::{judge_issue, judge_revoke};
use crate::registry_case::{judge_incept, judge_rotate};
use crate::{Call, Case, Finding};
use cesr_number::number::{read_u8, read_u16};
use host_status::status_calls::status;
use registry_wire::Part;

fn judge_status(case: &Case) -> Finding
    ensures { result ≡ judge_status (parts case.now) }
{
    let mut report = [0u8; 36];
    status(case.input, &mut report);
    let agrees = &report[..] == case.expected;
    Finding { agrees, read: true }
}

impl Call {
    #[tactic(auto, unfolding(crate::specs::Judgement::call_of))]
    fn of_byte(byte: u8) -> Option<Call>
        ensures { result ≡ call_of byte }
    {
        match byte {
            1 => Some(Call::Inception),
            2 => Some(Call::Rotation),
            3 => Some(Call::Issue),
            4 => Some(Call::Revocation),
            5 => Some(Call::Status),
            _ => None,
        }
    }
}

fn judge_call(call: Call, case: &Case) -> Finding
    ensures { result ≡ judge_call call (parts case.now) }
{
    match call {
        Call::Inception => judge_incept(case),
        Call::Rotation => judge_rotate(case),
        Call::Issue => judge_issue(case),
        Call::Revocation => judge_revoke(case),
        Call::Status => judge_status(case),
    }
}

// How many bytes a record's body has: the sum of four lengths, which stand in the last 8 of its first 46 bytes.
pub fn body_size(first: &[u8]) -> usize
    ensures { result ≡ size_of first.now }
{
    let states = read_u16(first, 38) as usize + read_u16(first, 40) as usize;
    states + read_u16(first, 42) as usize + read_u16(first, 44) as usize
}

// The parts of a record: what is expected stands in its first 46 bytes, with the lengths of the four parts of its body.
fn case_of<'a>(first: &'a [u8], body: &'a [u8]) -> Case<'a>
    ensures { parts result ≡ parts_of first.now body.now }
{
    let head = Part { from: 2, to: 38 };
    let a = read_u16(first, 38) as usize;
    let b = a + read_u16(first, 40) as usize;
    let c = b + read_u16(first, 42) as usize;
    let d = c + read_u16(first, 44) as usize;
    let next = Part { from: 0, to: a };
    let registry = Part { from: a, to: b };
    let credential = Part { from: b, to: c };
    let input = Part { from: c, to: d };
    Case {
        expected: head.bytes(first),
        next: next.bytes(body),
        registry: registry.bytes(body),
        credential: credential.bytes(body),
        input: input.bytes(body),
    }
}

// A byte that is no call's agrees with nothing.
pub fn judge_record(first: &[u8], body: &[u8]) -> Finding
    ensures { result ≡ judge_of first.now body.now }
{
    match Call::of_byte(read_u8(first, 0)) {
        Some(call) => judge_call(call, &case_of(first, body)),
        None => Finding {
            agrees: false,
            read: false,
        },
    }
}
