// Lists of backers by value, and what the rules on them can answer (docs/RULES.md, "Lists of backers").
#![tactic(auto)]

pub mod member_set;

pub use cesr::{BasicPrefix, Matter, Said};

// The members are the first `count` of the items. The capacity is no parameter, since the C interface has the list as a field.
#[repr(C)]
#[derive(Clone, Copy)]
pub struct Members {
    pub items: [BasicPrefix; 16],
    pub count: usize,
}

// A list of 16 has no place for one more.
#[derive(Clone, Copy, PartialEq, Eq)]
pub struct NoRoom;

// The rules, in the order of their numbers.
#[derive(Clone, Copy, PartialEq, Eq)]
pub enum Rule {
    DuplicateBacker,
    DuplicateCut,
    DuplicateAddition,
    CutAddOverlap,
    RemovalNotCurrent,
    AdditionAlreadyPresent,
}

// A rule that does not hold. `at` is the position, from 0, of an element that breaks it.
#[derive(Clone, Copy, PartialEq, Eq)]
pub struct Broken {
    pub rule: Rule,
    pub at: usize,
}
