// Lists of at most 16 backers by value, and what a rule on them is about (docs/RULES.md, "Lists of backers").
ghost use Rattle.std.specs.Prelude.{◌≡◌, [], ◌≤◌, length, ltb, is_ok, OnErr};
ghost use Rattle.events.specs.Members.{view, no_prefix, at, pushed, is_repeat, is_missing};

use crate::{Members, NoRoom, Rule};
use cesr::{BasicPrefix, Matter};

impl Members {
    pub fn empty() -> Members
        ensures { (view result ≡ []) × (result.count ≡ 0) }
    {
        Members {
            items: [no_prefix(); 16],
            count: 0,
        }
    }

    // How many there are: at most 16, whatever the count says.
    pub fn size(&self) -> usize
        ensures value { result ≡ length (view self.now) }
        ensures self_len_bound { length (view self.now) ≤ 16 }
    {
        self.count.min(16)
    }

    pub fn as_slice(&self) -> &[BasicPrefix]
        ensures value { result.now ≡ view self.now }
        ensures self_len_bound { length (view self.now) ≤ 16 }
    {
        let n = self.size();
        &self.items[..n]
    }

    // The same members, and no count past them.
    pub fn trimmed(&self) -> Members
        ensures { (view result ≡ view self.now) × (result.count ≤ 16) }
    {
        Members {
            items: self.items,
            count: self.size(),
        }
    }

    // The member at `i`, or no prefix past the end.
    pub fn item(&self, i: usize) -> BasicPrefix
        ensures { result ≡ at (view self.now) i }
    {
        self.as_slice().get(i).copied().unwrap_or(no_prefix())
    }

    // Puts `p` behind the others. Where 16 are held the list stays as it was.
    pub fn push(&mut self, p: BasicPrefix) -> Result<(), NoRoom>
        ensures ok { is_ok result ≡ ltb (length (view self.old)) 16 }
        ensures list { view self.new ≡ pushed (view self.old) p }
        ensures kept { OnErr result (self.new ≡ self.old) }
        ensures count { self.old.count ≤ 16 → self.new.count ≤ 16 }
    {
        let n = self.count;
        if n < 16 {
            self.items[n] = p;
            self.count = n + 1;
            return Ok(());
        }
        Err(NoRoom)
    }
}

impl Rule {
    // Whether the rule is about an element that stands in its own list before.
    pub fn is_repeat(self) -> bool
        ensures { result ≡ is_repeat self }
    {
        matches!(
            self,
            Rule::DuplicateBacker | Rule::DuplicateCut | Rule::DuplicateAddition
        )
    }

    // Whether it asks for a member of the other list, so that an element that is not found there breaks it.
    pub fn is_missing(self) -> bool
        ensures { result ≡ is_missing self }
    {
        matches!(self, Rule::RemovalNotCurrent)
    }
}

// What stands where there is no member.
fn no_prefix() -> BasicPrefix
    ensures { result ≡ no_prefix }
{
    BasicPrefix(Matter::none())
}
