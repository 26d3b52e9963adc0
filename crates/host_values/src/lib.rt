// The values of a report: evidence kinds awaited, and details (docs/RULES.md, "Refusals").
#![tactic(auto)]

ghost use Rattle.std.specs.Prelude.{◌≡◌, [], ◌∷◌, length, get_or};
ghost use Rattle.cesr_sn.specs.Numbers.{value};
ghost use Rattle.events.specs.Members.{rule_of};
ghost use Rattle.registry_disposition.specs.Dispositions.{kind_place, awaited_of};
ghost use Rattle.registry_error.specs.Errors.{details_of};
ghost use Rattle.host_values.specs.ReportValues.{values_of};

use cesr_sn::Sn;
use events::Rule;
use registry_disposition::{Disposition, EvidenceKind};
use registry_error::RegistryRejection;

#[derive(Clone, Copy)]
pub enum Values {
    Nothing,
    One(Sn),
    Two(Sn, Sn),
}

impl Values {
    pub fn count(self) -> u8
        ensures { result ≡ length (values_of self) }
    {
        match self {
            Values::Nothing => 0,
            Values::One(_) => 1,
            Values::Two(_, _) => 2,
        }
    }

    // A value that is not there is 0.
    pub fn first(self) -> Sn
        ensures { value result ≡ get_or (values_of self) 0 0 }
    {
        match self {
            Values::Nothing => small(0),
            Values::One(a) => a,
            Values::Two(a, _) => a,
        }
    }

    pub fn second(self) -> Sn
        ensures { value result ≡ get_or (values_of self) 1 0 }
    {
        match self {
            Values::Nothing => small(0),
            Values::One(_) => small(0),
            Values::Two(_, b) => b,
        }
    }
}

// A number of 64 bits, as a value.
pub fn small(n: u64) -> Sn
    ensures { value result ≡ n }
{
    Sn { hi: 0, lo: n }
}

fn place(kind: EvidenceKind) -> u8
    ensures { result ≡ kind_place kind }
{
    match kind {
        EvidenceKind::CredentialTelState => 2,
        EvidenceKind::RegistryState => 11,
        EvidenceKind::IssuerState => 12,
        EvidenceKind::KelAnchor => 13,
        EvidenceKind::PriorEvents { expected: _ } => 14,
        EvidenceKind::BackerReceipts {
            valid: _,
            required: _,
        } => 17,
        EvidenceKind::TelAnchor { sn: _ } => 20,
    }
}

pub fn awaited(d: Disposition) -> u8
    ensures { result ≡ awaited_of d }
{
    match d {
        Disposition::Terminal => 0,
        Disposition::Contested => 0,
        Disposition::Awaiting(kind) => place(kind),
    }
}

fn rule_number(rule: Rule) -> u64
    ensures { result ≡ rule_of rule }
{
    match rule {
        Rule::DuplicateBacker => 1,
        Rule::DuplicateCut => 2,
        Rule::DuplicateAddition => 3,
        Rule::CutAddOverlap => 4,
        Rule::RemovalNotCurrent => 5,
        Rule::AdditionAlreadyPresent => 6,
    }
}

pub fn details(r: RegistryRejection) -> Values
    ensures { values_of result ≡ details_of r }
{
    match r {
        RegistryRejection::OutOfOrder { expected, actual } => Values::Two(expected, actual),
        RegistryRejection::UnresolvedAnchor { sn } => Values::One(sn),
        RegistryRejection::BackerSet { rule, at } => two(rule_number(rule), at as u64),
        RegistryRejection::MissingBackerReceipts { valid, required } => two(
            valid as u64,
            required as u64,
        ),
        _ => Values::Nothing,
    }
}

fn two(a: u64, b: u64) -> Values
    ensures { values_of result ≡ a ∷ b ∷ [] }
{
    Values::Two(small(a), small(b))
}
