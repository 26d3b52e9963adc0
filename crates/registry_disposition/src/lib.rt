// What the sender of an attempt that is turned down is to do (docs/RULES.md, "Refusals").
#![tactic(auto)]

ghost use Rattle.std.specs.Prelude.{◌≡◌};
ghost use Rattle.registry_disposition.specs.Dispositions.{out_of_order, letter_of};

pub use cesr_sn::Sn;

// The evidence whose arrival makes an attempt acceptable.
#[derive(Clone, Copy)]
pub enum EvidenceKind {
    CredentialTelState,
    RegistryState,
    IssuerState,
    KelAnchor,
    PriorEvents { expected: Sn },
    BackerReceipts { valid: usize, required: u32 },
    TelAnchor { sn: Sn },
}

// What to do with an attempt: drop it or report it; compare it with what is recorded; keep it and try again.
#[derive(Clone, Copy)]
pub enum Disposition {
    Terminal,
    Contested,
    Awaiting(EvidenceKind),
}

// A gap waits for the events before it; a number that is taken is contested.
pub fn out_of_order(expected: Sn, actual: Sn) -> Disposition
    ensures { result ≡ out_of_order expected actual }
{
    if expected < actual {
        return Disposition::Awaiting(EvidenceKind::PriorEvents { expected });
    }
    Disposition::Contested
}

impl Disposition {
    // The letter that stands for it: T, C or W.
    pub fn letter(self) -> u8
        ensures { result ≡ letter_of self }
    {
        match self {
            Disposition::Terminal => b'T',
            Disposition::Contested => b'C',
            Disposition::Awaiting(_) => b'W',
        }
    }
}
