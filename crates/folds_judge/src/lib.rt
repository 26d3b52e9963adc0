// A recorded call of a fold or of `status`, made again and held against its record.
#![tactic(auto)]

mod credential_case;
pub mod judge;
mod part;
mod registry_case;

// What is found of a case.
#[derive(Clone, Copy)]
pub struct Finding {
    pub agrees: bool,
    // Whether the states in its record can be read.
    pub read: bool,
}

// The folds of vcp, vrt, iss and bis, rev and brv, and `status`.
#[derive(Clone, Copy)]
enum Call {
    Inception,
    Rotation,
    Issue,
    Revocation,
    Status,
}

// The parts of a record, in its bytes.
#[derive(Clone, Copy)]
struct Case<'a> {
    // The report of the answer.
    expected: &'a [u8],
    // The state behind an accepted call.
    next: &'a [u8],
    // The states that are handed in.
    registry: &'a [u8],
    credential: &'a [u8],
    // The attempt, or the input of `status`.
    input: &'a [u8],
}
