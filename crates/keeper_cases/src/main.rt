// Runs a table of keepers on standard input, a case to a line, and prints what each holds.
//   K TIME:BIB TIME:BIB ..   K places, and the runners put in this order; of two with one time neither comes first
// A line of the answer has the count of the filled places and then all K places, those not filled as `-`.
#![tactic(auto)]

ghost use Rattle.std.specs.Prelude.{Some};
ghost use Rattle.keeper_cases.specs.Runners.{faster, runner_text};
ghost use Rattle.keeper_cases.specs.RunnerOrderedLemmas.{one-first, carries, level};

use anyhow::Context;
use keeper::{Keeper, Ordered, first_of};
use std::alloc::Global;
use std::fmt;
use std::fmt::Write;
use std::io::{BufRead, BufReader};
use std::str::FromStr;

#[derive(Clone, Copy, Debug, PartialEq, Eq)]
pub struct Runner {
    pub time: i64,
    pub bib: u32,
}

// Not the library's order: the bib stays out of it.
impl Ordered for Runner {
    ghost before = { faster };

    ghost total = { record {
      one-first = λ x y. one-first x.time y.time;
      carries = λ x y z. carries x.time y.time z.time;
      equal-carries = λ x y z p q. (level z.time y.time x.time q.0 p.0, level x.time y.time z.time p.1 q.1);
    } };

    fn comes_before(&self, other: &Runner) -> bool {
        self.time < other.time
    }
}

// time:bib
impl fmt::Display for Runner {
    ghost output = { λ runner. Some (runner_text runner) };

    fn fmt<W: fmt::Write>(&self, f: &mut fmt::Formatter<W>) -> fmt::Result {
        let Runner { time, bib } = *self;
        write!(f, "{time}:{bib}")
    }
}

impl FromStr for Runner {
    type Err = anyhow::Error;

    fn from_str(word: &str) -> anyhow::Result<Runner> {
        let (time, bib) = word.split_once(':').context("no runner")?;
        Ok(Runner {
            time: time.parse::<i64>()?,
            bib: bib.parse::<u32>()?,
        })
    }
}

// A place that holds nobody: a keeper's places hold entries, which an `Option` is not, so bib 0 is nobody's.
const NOBODY: Runner = Runner { time: 0, bib: 0 };

fn shown(heap: Global, filled: usize, places: &[Runner]) -> anyhow::Result<String> {
    let mut text = format!(in heap; "{filled}")?;
    for place in places {
        if place.bib == NOBODY.bib {
            text.push_str(" -")?;
        } else {
            write!(text, " {place}")?;
        }
    }
    Ok(text)
}

// The same twice: all at once, and one by one.
fn answer(heap: Global, case: &str) -> anyhow::Result<String> {
    let mut words = case.split(' ');
    let count = words.next().context("no count")?.parse::<u8>()?;
    // A push each: `map` and `try_collect` move an `anyhow::Result` for every runner, and take a third longer.
    let mut runners = Vec::new(heap);
    for word in words {
        runners.push(word.parse::<Runner>()?)?;
    }
    let mut places = vec![in heap; NOBODY; count as usize]?;
    let filled = first_of(&runners, &mut places);
    let at_once = shown(heap, filled, &places)?;
    let one_by_one = put_all(heap, &runners, count)?;
    if at_once == one_by_one {
        Ok(at_once)
    } else {
        Ok(format!(in heap; "{at_once} but {one_by_one}")?)
    }
}

fn put_all(heap: Global, runners: &[Runner], count: u8) -> anyhow::Result<String> {
    let mut places = vec![in heap; NOBODY; count as usize]?;
    let mut keeper = Keeper::new(&mut places);
    for runner in runners {
        keeper.put(*runner);
    }
    let filled = keeper.len();
    shown(heap, filled, &places)
}

// Each program has such a loop of its own: a shared one would take the call as a closure, and be longer.
fn main(rt: HostRuntime) -> anyhow::Result<()> {
    let heap = rt.alloc();
    for case in BufReader::new(heap, rt.stdin())?.lines(heap) {
        let case = case?;
        rt.println(answer(heap, case.as_str())?)?;
    }
    Ok(())
}
