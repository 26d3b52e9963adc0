// Answers, and the order of checks (docs/RULES.md, "Orders").
ghost use Rattle.std.specs.Prelude.{◌≡◌};
ghost use Rattle.registry_answer.specs.Answers.{accepts, accept_if, backer_set, or_else};

use registry_error::{Answer, Broken, RegistryRejection};

pub fn accepts(answer: Answer) -> bool
    ensures { result ≡ accepts answer }
{
    match answer {
        Ok(()) => true,
        Err(_) => false,
    }
}

// A check: the refusal, unless the test holds.
pub fn accept_if(test: bool, refusal: RegistryRejection) -> Answer
    ensures { result ≡ accept_if test refusal }
{
    if test {
        return Ok(());
    }
    Err(refusal)
}

// The rules on lists of backers, as a check.
pub fn backer_set(membership: Result<(), Broken>) -> Answer
    ensures { result ≡ backer_set membership }
{
    match membership {
        Ok(()) => Ok(()),
        Err(Broken { rule, at }) => { Err(RegistryRejection::BackerSet { rule, at }) }
    }
}

// Of two checks the first that refuses decides.
pub fn or_else(first: Answer, second: Answer) -> Answer
    ensures { result ≡ or_else first second }
{
    match first {
        Ok(()) => second,
        Err(_) => first,
    }
}
