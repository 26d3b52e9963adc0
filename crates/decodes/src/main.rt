// Reads attempts, each behind the answer that is expected of it, and says which `Attempt::decode` finds malformed, and how many as
// expected. A record is a byte, 0 for well-formed or 1 for malformed, a byte for its group, two bytes for a length, and as many bytes.
#![tactic(auto)]

ghost use Rattle.std.specs.Prelude.{◌≡◌, ◌≤◌};
ghost use Rattle.tally.specs.Counts.{tallied_of};
ghost use Rattle.decodes.specs.Counting.{group_place, place_of, tests_of};
ghost use Rattle.decodes.specs.Judgement.{judge_of};

use reading::{Next, read_full, read_part};
use registry_wire::Attempt;
use std::io;
use std::io::Read;
use tally::{Count, Tally};

// What is found of an attempt.
#[derive(Clone, Copy)]
struct Finding {
    malformed: bool,
    // Whether the record said so too.
    agrees: bool,
}

// What an attempt was made for.
#[derive(Clone, Copy)]
enum Group {
    Other,
    Vectors,
    Cut,
    Long,
    Limits,
    Letters,
    Ranges,
}

// An attempt's group, and what is found of it.
#[derive(Clone, Copy)]
struct Judged {
    group: Group,
    finding: Finding,
}

// Of each group how many attempts there were, how many malformed, and how many as expected.
type Groups = Tally<2, 7>;

// What is expected is the record's byte, and no bool: one that is neither 0 nor 1 is right of no attempt.
#[tactic(auto, unfolding(crate::specs::Judgement::judge_of))]
fn judge(expected: u8, attempt: &[u8]) -> Finding
    ensures { result ≡ judge_of expected attempt.now }
{
    let ok = Attempt::decode(attempt).is_some();
    Finding {
        malformed: !ok,
        agrees: (ok & (expected == 0)) | (!ok & (expected == 1)),
    }
}

impl Group {
    // The groups of the bytes 1 to 6. Any other byte is no group's.
    fn of_byte(byte: u8) -> Group
        ensures { group_place result ≡ place_of byte }
    {
        match byte {
            1 => Group::Vectors,
            2 => Group::Cut,
            3 => Group::Long,
            4 => Group::Limits,
            5 => Group::Letters,
            6 => Group::Ranges,
            _ => Group::Other,
        }
    }

    // Where it is counted.
    fn place(self) -> usize
        ensures value { result ≡ group_place self }
        ensures upper_bound { result ≤ 6 }
    {
        self as usize
    }

    fn name(self) -> &'static str {
        match self {
            Group::Other => "other",
            Group::Vectors => "vectors",
            Group::Cut => "cut",
            Group::Long => "long",
            Group::Limits => "limits",
            Group::Letters => "letters",
            Group::Ranges => "ranges",
        }
    }
}

fn next_record(reader: &mut impl Read, buffer: &mut [u8]) -> io::Result<Next<Judged>> {
    let mut head = [0u8; 4];
    match read_full(reader, &mut head)? {
        4 => {}
        0 => return Ok(Next::End),
        _ => return Ok(Next::Broken),
    }
    let [expected, group, high, low] = head;
    let length = usize::from(u16::from_be_bytes([high, low]));
    let attempt = read_part(reader, buffer, length)?;
    if attempt.len() < length {
        return Ok(Next::Broken);
    }
    Ok(Next::Record(Judged {
        group: Group::of_byte(group),
        finding: judge(expected, attempt),
    }))
}

// A mark for each attempt, 64 in a line: M where it is malformed, else a dot.
fn print_mark(rt: &impl Print, malformed: bool, count: u64) -> io::Result<()> {
    let mark = if malformed { "M" } else { "." };
    print!(rt; "{mark}")?;
    if count % 64 == 0 {
        println!(rt)?;
    }
    Ok(())
}

// Counts an attempt in its group and in all: that it is malformed, and that it is as expected.
fn count_attempt(groups: &mut Groups, judged: Judged)
    ensures { groups.new ≡ tallied_of groups.old (group_place judged.group) (tests_of judged.finding) }
{
    let Judged { group, finding } = judged;
    groups.count(group.place(), [finding.malformed, finding.agrees]);
}

// Whether the input ends behind a record. A loop has to end, and nothing says that the input does. So it has a number of turns that no
// run uses up.
fn run(rt: &impl Print, reader: &mut impl Read, groups: &mut Groups) -> io::Result<bool> {
    let mut buffer = [0u8; 65536];
    for _ in 0..u64::MAX {
        match next_record(reader, &mut buffer)? {
            Next::Record(judged) => {
                count_attempt(groups, judged);
                print_mark(rt, judged.finding.malformed, groups.total.all)?;
            }
            Next::End => return Ok(true),
            Next::Broken => return Ok(false),
        }
    }
    Ok(false)
}

// A line, as `cut: 3 attempts, 2 malformed, 3 agree`.
fn print_count(rt: &impl Print, name: &str, count: Count<2>) -> io::Result<()> {
    let [malformed, agree] = count.held;
    println!(rt;
        "{name}: {} attempts, {malformed} malformed, {agree} agree",
        count.all
    )
}

fn main(rt: HostRuntime) -> io::Result<()> {
    let mut groups = Groups::empty();
    let whole = run(&rt, &mut rt.stdin(), &mut groups)?;
    println!(rt)?;
    let named = [
        Group::Vectors,
        Group::Cut,
        Group::Long,
        Group::Limits,
        Group::Letters,
        Group::Ranges,
    ];
    for group in &named {
        print_count(&rt, group.name(), groups.places[group.place()])?;
    }
    let other = groups.places[Group::Other.place()];
    if 0 < other.all {
        print_count(&rt, Group::Other.name(), other)?;
    }
    print_count(&rt, "total", groups.total)?;
    if !whole {
        println!(rt; "broken")?;
    }
    Ok(())
}
