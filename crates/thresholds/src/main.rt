// Reads lines such as `exact 2 1 26` and `ample 69 0 46`, a call and its answer, and says how many answers are those that
// `Toad::exact` and `Toad::ample` give. After `exact` stand a threshold, a count and the refusal's number; after `ample` a count, the
// refusal's number and the threshold, or `-` where there is none.
#![tactic(auto)]

mod text;

ghost use Rattle.std.specs.Prelude.{◌≡◌};
ghost use Rattle.events_toad.specs.Toads.{toad_number};
ghost use Rattle.thresholds.specs.Judgement.{judge_exact, same_toad, judge_ample, judge_of};

use events_toad::{Toad, ToadError};
use reading::read_full;
use std::io;
use tally::{Count, plus};
use text::{cut, number};

// What is found of a line.
#[derive(Clone, Copy)]
enum Verdict {
    // Whether the answer is what the call gives.
    Exact(bool),
    Ample(bool),
    // No line of the two kinds.
    Unread,
}

// A result's number: 0 where there is a threshold.
fn toad_number(res: Result<Toad, ToadError>) -> u64
    ensures { result ≡ toad_number res }
{
    res.map_or_else(|e| u64::from(e.number()), |_| 0)
}

fn judge_exact(toad: Option<u64>, count: Option<u64>, answer: Option<u64>) -> Verdict
    ensures { result ≡ judge_exact toad count answer }
{
    let (Some(toad), Some(count), Some(answer)) = (toad, count, answer) else {
        return Verdict::Unread;
    };
    let Ok(toad) = u32::try_from(toad) else {
        return Verdict::Unread;
    };
    let res = Toad::exact(toad, count as usize);
    Verdict::Exact(toad_number(res) == answer)
}

// Whether a result's threshold is the one that was read, or both have none.
fn same_toad(res: Result<Toad, ToadError>, toad: Option<u64>) -> bool
    ensures { result ≡ same_toad res toad }
{
    match (res, toad) {
        (Ok(t), Some(n)) => u64::from(t.value()) == n,
        (Err(_), None) => true,
        _ => false,
    }
}

fn judge_ample(count: Option<u64>, answer: Option<u64>, toad: Option<u64>, dash: bool) -> Verdict
    ensures { result ≡ judge_ample count answer toad dash }
{
    let (Some(count), Some(answer)) = (count, answer) else {
        return Verdict::Unread;
    };
    if !(toad.is_some() | dash) {
        return Verdict::Unread;
    }
    let res = Toad::ample(count as usize);
    Verdict::Ample((toad_number(res) == answer) & same_toad(res, toad))
}

#[tactic(auto, unfolding(crate::specs::Judgement::judge_of))]
fn judge(line: &[u8]) -> Verdict
    ensures { result ≡ judge_of line.now }
{
    let (kind, after_kind) = cut(line, b' ');
    let (first, after_first) = cut(after_kind, b' ');
    let (second, third) = cut(after_first, b' ');
    let a = number(first);
    let b = number(second);
    let c = number(third);
    match kind {
        b"exact" => judge_exact(a, b, c),
        b"ample" => judge_ample(a, b, c, third == b"-".as_slice()),
        _ => Verdict::Unread,
    }
}

// How many lines of each kind there were, and of how many of the first two the answer is what the call gives.
#[derive(Clone, Copy)]
struct Lines {
    exact: Count<1>,
    ample: Count<1>,
    unread: u64,
}

fn judge_all(s: &[u8]) -> Lines {
    let mut lines = Lines {
        exact: Count::zero(),
        ample: Count::zero(),
        unread: 0,
    };
    for line in s.split_inclusive(|b| *b == b'\n') {
        match judge(cut(line, b'\n').0) {
            Verdict::Exact(agrees) => lines.exact.count([agrees]),
            Verdict::Ample(agrees) => lines.ample.count([agrees]),
            Verdict::Unread => lines.unread = plus(lines.unread, true),
        }
    }
    lines
}

fn print_agree(rt: &impl Print, name: &str, count: Count<1>) -> io::Result<()> {
    let [agree] = count.held;
    println!(rt; "{name}: {agree} of {} agree", count.all)
}

fn main(rt: HostRuntime) -> io::Result<()> {
    let mut buffer = [0u8; 65536];
    let n = read_full(&mut rt.stdin(), &mut buffer)?;
    let lines = judge_all(&buffer[..n]);
    print_agree(&rt, "exact", lines.exact)?;
    print_agree(&rt, "ample", lines.ample)?;
    println!(rt; "lines that are not read: {}", lines.unread)?;
    if n == 65536 {
        println!(rt; "the input is too long")?;
    }
    Ok(())
}
