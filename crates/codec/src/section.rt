// The sections that a layout is made of: a count byte, then that many elements (docs/RULES.md, "Bytes").
ghost use Rattle.std.specs.Prelude.{◌≡◌, ◌≤◌, min};
ghost use Rattle.events.specs.Members.{view};
ghost use Rattle.events_tel.specs.TelEvents.{members_in};
ghost use Rattle.events_tel.specs.Readers.{viewed, count_up_to, times, read_prefix};
ghost use Rattle.events_tel.specs.Configs.{view_configs};
ghost use Rattle.codec.specs.Events.{is_config, read_config, read_configs, read_prefixes, read_toad, toad_value};

use events::{BasicPrefix, Matter, Members};
use events_tel::{Configs, Cursor, Listed, Read, Sn, Toad};

// The count byte of a section of at most limit elements. Where it is not there or above the limit, it counts none.
pub fn count_up_to(c: Cursor, s: &[u8], limit: u8) -> Read<usize>
    ensures { result ≡ count_up_to limit s.now c }
{
    let b = c.byte(s);
    let next = b.next.expect_that(b.value <= limit);
    let value = if next.ok { b.value as usize } else { 0 };
    Read { value, next }
}

// A config byte is 1 to 6.
#[tactic(auto, unfolding(crate::specs::Events::is_config))]
pub fn is_config(b: u8) -> bool
    ensures { result ≡ is_config b }
{
    (1..=6).contains(&b)
}

pub fn read_config(c: Cursor, s: &[u8]) -> Read<u8>
    ensures { result ≡ read_config s.now c }
{
    let b = c.byte(s);
    let value = b.value;
    let next = b.next.expect_that(is_config(value));
    Read { value, next }
}

pub fn read_configs(c: Cursor, s: &[u8]) -> Read<Configs>
    ensures { viewed view_configs result ≡ read_configs s.now c }
{
    let n = count_up_to(c, s, 8);
    let count = n.value;
    let mut next = n.next;
    let mut value = Configs::empty();
    for _i in 0..count {
        let b = read_config(next, s);
        // There is room for 8.
        let _ = value.push(b.value);
        next = b.next;
    }
    Read { value, next }
}

// So many prefixes from a cursor on. Each is stored in its place, since a list is copied at every call.
fn read_members(c: Cursor, s: &[u8], count: usize) -> Read<Members>
    requires { count ≤ 16 }
    ensures read { viewed view result ≡ times count read_prefix s.now c }
    ensures count { result.value.count ≡ count }
{
    let none = BasicPrefix(Matter::none());
    let mut items = [none; 16];
    let mut next = c;
    for i in 0..count {
        let p = next.prefix(s);
        items[i] = p.value;
        next = p.next;
    }
    let value = Members { items, count };
    Read { value, next }
}

pub fn read_prefixes(c: Cursor, s: &[u8]) -> Read<Members>
    ensures read { viewed view result ≡ read_prefixes s.now c }
    ensures count { result.value.count ≤ 16 }
{
    let n = count_up_to(c, s, 16);
    read_members(n.next, s, n.value)
}

// Behind a section of at most 16 prefixes, each held to its layout. They stay in the bytes.
pub fn pass_prefixes(c: Cursor, s: &[u8]) -> Read<Listed>
    ensures { viewed (members_in s.now) result ≡ read_prefixes s.now c }
{
    let listed = count_up_to(c, s, 16);
    let count = listed.value;
    let start = listed.next;
    let mut next = start;
    for _i in 0..count {
        next = next.pass_prefix(s);
    }
    Read {
        value: Listed { count, start },
        next,
    }
}

// How many a list of at most 16 has, whatever its count says: the limit under a name, since `n.min(16)` at each of its callers is no shorter.
pub fn at_most_16(n: usize) -> usize
    ensures { result ≡ min n 16 }
{
    n.min(16)
}

// The prefixes of a list that stays in the bytes.
pub fn members_in(s: &[u8], list: Listed) -> Members
    ensures { (view result ≡ members_in s.now list) × (result.count ≤ 16) }
{
    let r = read_members(list.start, s, at_most_16(list.count));
    r.value
}

// A threshold has 16 bytes in an event, and has to fit 32 bits.
pub fn read_toad(c: Cursor, s: &[u8]) -> Read<Toad>
    ensures { viewed toad_value result ≡ read_toad s.now c }
{
    let n = c.sn(s);
    let number = n.value;
    let above = Sn {
        hi: 0,
        lo: 4294967296,
    };
    let next = n.next.expect_that(number < above);
    let value = Toad::from_wire((number.lo % 4294967296) as u32);
    Read { value, next }
}
