// Lists of backers that stay in the bytes, and the rules on them (docs/RULES.md, "Lists of backers").
#![tactic(auto)]

pub mod deltas;

use codec::Listed;
pub use events_member_set::member_set::{check_current, check_deltas, check_members};

// A list that stays in the bytes, and the bytes.
#[derive(Clone, Copy)]
pub struct InBytes<'a> {
    pub bytes: &'a [u8],
    pub list: Listed,
}
