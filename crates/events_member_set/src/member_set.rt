// The rules on lists of backers, wherever the lists stand (docs/RULES.md, "Lists of backers"): the first place that breaks one, in the order of the rules.
ghost use Rattle.std.specs.Prelude.{◌≡◌, ◌<◌, List, [], cond, length, take, drop};
ghost use Rattle.cesr.specs.declared.BasicPrefix.{BasicPrefix};
ghost use Rattle.events.specs.Members.{at, has, is_repeat, check, check_members, check_deltas, check_current, Offends};

use cesr::{BasicPrefix, Matter};
use events::{Broken, Rule};

// A list of prefixes: by value, or in bytes.
pub trait Prefixes: Copy {
    ghost list: { Self → List BasicPrefix };

    fn size(self) -> usize
        ensures { result ≡ length (list self) };

    // The first one, where there is one, and those behind it.
    fn split(self) -> (BasicPrefix, Self)
        ensures head { 0 < length (list self) → result.0 ≡ at (list self) 0 }
        ensures tail { list result.1 ≡ drop 1 (list self) };

    // The first n, or all.
    fn front(self, n: usize) -> Self
        ensures { list result ≡ take n (list self) };

    fn has(self, x: BasicPrefix) -> bool
        ensures { result ≡ has x (list self) };
}

impl Prefixes for &[BasicPrefix] {
    ghost list = { λ l. l.now };

    fn size(self) -> usize {
        self.len()
    }

    fn split(self) -> (BasicPrefix, Self) {
        let head = self.first().copied().unwrap_or(BasicPrefix(Matter::none()));
        let tail = self.get(1..).unwrap_or(&[]);
        (head, tail)
    }

    fn front(self, n: usize) -> Self {
        self.get(..n).unwrap_or(self)
    }

    fn has(self, x: BasicPrefix) -> bool {
        self.contains(&x)
    }
}

// Whether x, which has a place in the list, stands where the rule looks for it too: before its place, for a repeat, or in the other list.
fn is_found<L: Prefixes, O: Prefixes>(
    rule: Rule,
    x: BasicPrefix,
    list: L,
    place: usize,
    other: O,
) -> bool
    ensures { result ≡ has x (cond (is_repeat rule) (take place (L.list list)) (O.list other)) }
{
    if rule.is_repeat() {
        return list.front(place).has(x);
    }
    other.has(x)
}

// One rule on a list: the first place that breaks it. For a repeat the other list is not looked at.
fn check<L: Prefixes, O: Prefixes>(rule: Rule, list: L, other: O) -> Result<(), Broken>
    ensures { result ≡ check rule (L.list list) (O.list other) }
{
    let mut rest = list;
    for at in 0..list.size() {
        let next = rest.split();
        let found = is_found(rule, next.0, list, at, other);
        if found != rule.is_missing() {
            return Err(Broken { rule, at });
        }
        rest = next.1;
    }
    Ok(())
}

// No backer stands twice.
pub fn check_members<L: Prefixes>(members: L) -> Result<(), Broken>
    ensures answer { result ≡ check_members (L.list members) }
    ensures offends { Offends result (record { backers = L.list members; cuts = []; additions = [] }) }
{
    check(Rule::DuplicateBacker, members, members)
}

// No cut stands twice, no addition stands twice, and no cut is added.
pub fn check_deltas<L: Prefixes>(cuts: L, additions: L) -> Result<(), Broken>
    ensures answer { result ≡ check_deltas (L.list cuts) (L.list additions) }
    ensures offends { Offends result (record { backers = []; cuts = L.list cuts; additions = L.list additions }) }
{
    check(Rule::DuplicateCut, cuts, cuts)?;
    check(Rule::DuplicateAddition, additions, additions)?;
    check(Rule::CutAddOverlap, cuts, additions)
}

// Each cut is a current backer, and no addition is one.
pub fn check_current<C: Prefixes, L: Prefixes>(
    current: C,
    cuts: L,
    additions: L,
) -> Result<(), Broken>
    ensures answer { result ≡ check_current (C.list current) (L.list cuts) (L.list additions) }
    ensures offends { Offends result (record { backers = C.list current; cuts = L.list cuts; additions = L.list additions }) }
{
    check(Rule::RemovalNotCurrent, cuts, current)?;
    check(Rule::AdditionAlreadyPresent, additions, current)
}
