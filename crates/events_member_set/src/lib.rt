// The checks of lists of backers.
#![tactic(auto)]

pub mod member_set;
