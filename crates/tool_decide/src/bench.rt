//! `bench`: decides generated problems and counts the answers.
ghost use Rattle.std.specs.Prelude.{◌≡◌, ◌≤◌, ◌<◌, ◌+◌, ◌++◌, IfOk, OnOk, MatchOption};
ghost use Rattle.std.specs.Fmt.{decimal};
ghost use Rattle.kat_model.specs.Relations.{Same};
ghost use Rattle.bench_problems.specs.Generator.{bench_problem};
ghost use Rattle.tool_decide.specs.Bench.{IsTally, tally_line, BenchReply};
ghost use Rattle.tool_decide.specs.Working.Tallies.{IsTallied, HasFewest};

use bench_problems::bench_problem;
use bisim_worklist::decide;
use certificate::Evidence;
use kat_model::NoMemory;
use std::alloc::Global;
use std::fmt::Write;
use tool_commands::ProblemCount;
use tool_inputs::Reply;

// The numbers of problems that are the same and that are not, and the total number of moves of strings that refute the
// latter.
#[derive(Clone, Copy)]
struct Tally {
    equal: u64,
    different: u64,
    // 128 bits: the number of moves of a string in memory is below 2^64, so the sum of ten thousand is below 2^78. No
    // contract bounds the moves of a shortest string.
    moves: u128,
}

// Returns the number of moves of a shortest string that refutes problem `k`, or `None` if both sides are the same.
fn moves_of(alloc: Global, k: u64) -> Result<Option<usize>, NoMemory>
    requires { k < 10000 }
    ensures { IfOk result (λ r. MatchOption r (Same (bench_problem k)) (HasFewest (bench_problem k))) }
{
    let problem = bench_problem(alloc, k)?;
    match decide(alloc, &problem)? {
        Evidence::Equal(_) => Ok(None),
        Evidence::Different(string) => Ok(Some(string.rest.as_slice().len())),
    }
}

// Adds problem `k` to the tally of the `k` problems before it.
fn one_more(tally: Tally, k: u64, moves: Option<usize>) -> Tally
    requires before { IsTallied k tally.equal tally.different tally.moves }
    requires within { k < 10000 }
    requires given { MatchOption moves (Same (bench_problem k)) (HasFewest (bench_problem k)) }
    ensures { IsTallied (k + 1) result.equal result.different result.moves }
{
    match moves {
        None => Tally {
            equal: tally.equal + 1,
            ..tally
        },
        Some(moves) => Tally {
            different: tally.different + 1,
            moves: tally.moves + moves as u128,
            ..tally
        },
    }
}

fn tally_of(alloc: Global, count: u64) -> Result<Tally, NoMemory>
    requires { count ≤ 10000 }
    ensures { IfOk result (λ t. IsTallied count t.equal t.different t.moves) }
{
    let mut tally = Tally {
        equal: 0,
        different: 0,
        moves: 0,
    };
    for k in 0..count {
        tally = one_more(tally, k, moves_of(alloc, k)?);
    }
    Ok(tally)
}

// Appends a word and a number in decimal.
fn put_number(alloc: Global, out: &mut Vec<u8>, word: &[u8], number: u128) -> Result<(), NoMemory>
    ensures { OnOk result (out.new.items ≡ out.old.items ++ (word.now ++ decimal number)) }
{
    out.extend_from_slice(word)?;
    out.extend_from_slice(format!(in alloc; "{number}")?.as_bytes())?;
    Ok(())
}

fn tally_line(alloc: Global, count: u64, tally: Tally) -> Result<Vec<u8>, NoMemory>
    ensures { IfOk result (λ v. v.items ≡ tally_line count tally.equal tally.different tally.moves) }
{
    let mut line = Vec::new(alloc);
    put_number(alloc, &mut line, b"problems ", count as u128)?;
    put_number(alloc, &mut line, b" equal ", tally.equal as u128)?;
    put_number(alloc, &mut line, b" different ", tally.different as u128)?;
    put_number(alloc, &mut line, b" moves ", tally.moves)?;
    line.push(b'\n')?;
    Ok(line)
}

/// Returns the reply of `bench` to a number of generated problems: how many are the same, how many are not, and the
/// total number of moves of shortest strings that refute the latter. Fails only when out of memory.
pub fn bench_reply(alloc: Global, count: ProblemCount) -> Result<Reply, NoMemory>
    ensures { IfOk result (λ r. BenchReply count.number r.status r.output.items) }
{
    let ProblemCount { number } = count;
    let tally = tally_of(alloc, number)?;
    Ok(Reply {
        status: 0,
        output: tally_line(alloc, number, tally)?,
    })
}
