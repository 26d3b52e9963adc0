// Makes recorded calls of the folds and of `status` again, and says of each number from 0 to 39 how many cases expect it, and in how
// many of them the answer, its details and the state behind it are the recorded ones.
//
// A record is 46 bytes and a body. The bytes: the call (1 to 4 the folds of vcp, vrt, iss and bis, rev and brv; 5 `status`), the Rust's
// own number, which is another one where the Rust lacks a limit (of malformed bytes, which it is not handed, 1), the number that is
// expected, its letter, the evidence kind awaited, how many details there are, two details of 16 bytes (0 where there is none), and four
// lengths of two bytes. The body has so many bytes of the next state, of the registry state, of the credential state, and of the attempt
// or the input of `status`. Behind a refusal there is no next state, since the one that was handed in stays.
#![tactic(auto)]

ghost use Rattle.std.specs.Prelude.{◌≡◌};
ghost use Rattle.tally.specs.Counts.{tallied_of};
ghost use Rattle.folds.specs.Counting.{place_of, tests_of};

use folds_judge::Finding;
use folds_judge::judge::{body_size, judge_record};
use reading::{Next, read_full, read_part};
use std::io;
use std::io::Read;
use tally::{Count, Tally};

// A case: the number that is expected, the Rust's own, and what is found. Both numbers are the record's bytes: they are compared with each
// other and counted, and a byte that is no answer's number is counted too.
#[derive(Clone, Copy)]
struct Case {
    number: u8,
    rust: u8,
    finding: Finding,
}

// Of each number how many cases there were, how many agree, in how many the states can't be read, and in how many the Rust gives another.
type Numbers = Tally<3, 41>;

// The numbers 0 to 39 are counted at their places, and any other at 40.
fn place(number: u8) -> usize
    ensures { result ≡ place_of number }
{
    usize::from(number).min(40)
}

fn next_record(reader: &mut impl Read, buffer: &mut [u8]) -> io::Result<Next<Case>> {
    let mut head = [0u8; 46];
    match read_full(reader, &mut head)? {
        46 => {}
        0 => return Ok(Next::End),
        _ => return Ok(Next::Broken),
    }
    let length = body_size(&head);
    // Of a record that there is no room for, none of the body is read.
    if buffer.len() < length {
        return Ok(Next::Broken);
    }
    let body = read_part(reader, buffer, length)?;
    if body.len() < length {
        return Ok(Next::Broken);
    }
    Ok(Next::Record(Case {
        number: head[2],
        rust: head[1],
        finding: judge_record(&head, body),
    }))
}

// Counts a case at its number and in all: that it agrees, that its states can't be read, and that the Rust gives another number.
fn count_case(numbers: &mut Numbers, case: Case)
    ensures { numbers.new ≡ tallied_of numbers.old (place_of case.number) (tests_of case) }
{
    let Case {
        number,
        rust,
        finding,
    } = case;
    numbers.count(
        place(number),
        [finding.agrees, !finding.read, number != rust],
    );
}

// Whether the input ends behind a record. A loop has to end, and nothing says that the input does. So it has a number of turns that no
// run uses up.
fn run(reader: &mut impl Read, numbers: &mut Numbers) -> io::Result<bool> {
    let mut buffer = [0u8; 65536];
    for _ in 0..u64::MAX {
        match next_record(reader, &mut buffer)? {
            Next::Record(case) => count_case(numbers, case),
            Next::End => return Ok(true),
            Next::Broken => return Ok(false),
        }
    }
    Ok(false)
}

// The end of a line, as `3 cases, 3 agree`.
fn print_count(rt: &impl Print, count: Count<3>) -> io::Result<()> {
    let [agree, _, _] = count.held;
    println!(rt; "{} cases, {agree} agree", count.all)
}

// A line for each number that occurs, as `24: 3 cases, 3 agree`.
fn print_numbers(rt: &impl Print, counts: &[Count<3>]) -> io::Result<()> {
    for (number, count) in counts.iter().enumerate() {
        if 0 < count.all {
            print!(rt; "{number}: ")?;
            print_count(rt, *count)?;
        }
    }
    Ok(())
}

fn main(rt: HostRuntime) -> io::Result<()> {
    let mut numbers = Numbers::empty();
    let whole = run(&mut rt.stdin(), &mut numbers)?;
    print_numbers(&rt, &numbers.places[..40])?;
    let other = numbers.places[40];
    if 0 < other.all {
        print!(rt; "other: ")?;
        print_count(&rt, other)?;
    }
    print!(rt; "total: ")?;
    print_count(&rt, numbers.total)?;
    let [_, unread, others] = numbers.total.held;
    println!(rt; "states that are not read: {unread}")?;
    println!(rt; "another number in the Rust: {others}")?;
    if !whole {
        println!(rt; "broken")?;
    }
    Ok(())
}
