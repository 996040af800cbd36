// Runs a script on one house, a call to a line, and prints what the house answers to each.
//   open MEMBERS A B ..                      the member of each account; the same house is opened again
//   accept LONG SHORT KIND N K NPV MATURITY
//   ask NUMBER ACCOUNT PAYMENT SESSION       and   answer NUMBER ACCOUNT yes|no
//   diary K, swap NUMBER, session, live      what a caller may ask of the house
#![tactic(auto)]

use anyhow::{Context, bail};
use book::calls::{Offer, Reply, Request};
use coupons::lines::Terms;
use house::house::House;
use refusal::Fault;
use std::alloc::{AllocError, Global};
use std::fmt::Write;
use std::io::{BufRead, BufReader};
use swaps::ends::{End, Mark};
use swaps::swap::Swap;

// A word's number. Another program has this function too: a crate for the two to share would be longer than the function.
fn number(word: Option<&str>) -> anyhow::Result<i64> {
    Ok(word.context("a figure is missing")?.parse::<i64>()?)
}

fn outcome(heap: Global, answer: Result<(), Fault>) -> Result<String, AllocError> {
    match answer {
        Ok(()) => String::from_str(heap, "granted"),
        Err(fault) => fault.to_string(heap),
    }
}

fn read_offer(figures: &str) -> anyhow::Result<Offer> {
    let mut words = figures.split(' ');
    let long = number(words.next())?;
    let short = number(words.next())?;
    let letter = words.next().context("no kind")?;
    Ok(Offer {
        long,
        short,
        kind: letter.chars().next().context("no kind")?,
        millions: number(words.next())?,
        thousands: number(words.next())?,
        npv: number(words.next())?,
        maturity: number(words.next())?,
    })
}

fn agreement(word: Option<&str>) -> anyhow::Result<bool> {
    match word {
        Some("yes") => Ok(true),
        Some("no") => Ok(false),
        _ => bail!("neither yes nor no"),
    }
}

// A place that holds no end: a diary's places hold ends, and no swap has number 0.
const NOTHING: End = End {
    session: 0,
    number: 0,
    mark: Mark::Maturity,
};

// What the script prints of a swap: the answer's own order of fields, so no `Display` of swaps.
fn shown_swap(heap: Global, swap: &Swap) -> Result<String, AllocError> {
    let Swap {
        long,
        short,
        terms,
        npv,
        registered,
        maturity,
        state,
        ..
    } = *swap;
    let Terms {
        kind,
        millions,
        thousands,
    } = terms;
    format!(in heap;
        "{long} {short} {kind} {millions} {thousands} {npv} {registered} {maturity} {state}"
    )
}

// The house that a script calls, and the heap of the answers' texts.
#[derive(Drop)]
struct Script {
    heap: Global,
    house: House,
}

impl Script {
    fn open(&mut self, figures: &str) -> anyhow::Result<String> {
        let mut words = figures.split(' ');
        let members = number(words.next())?;
        // A push each: `try_collect` moves an `anyhow::Result` for every account, and takes half as long again.
        let mut accounts = Vec::new(self.heap);
        for word in words {
            accounts.push(word.parse::<i64>()?)?;
        }
        Ok(outcome(self.heap, self.house.open(members, &accounts))?)
    }

    fn accept(&mut self, figures: &str) -> anyhow::Result<String> {
        let offer = read_offer(figures)?;
        match self.house.accept(&offer) {
            Ok(number) => Ok(format!(in self.heap; "number={number}")?),
            Err(fault) => Ok(fault.to_string(self.heap)?),
        }
    }

    fn ask(&mut self, figures: &str) -> anyhow::Result<String> {
        let mut words = figures.split(' ');
        let request = Request {
            number: number(words.next())?,
            account: number(words.next())?,
            payment: number(words.next())?,
            session: number(words.next())?,
        };
        Ok(outcome(self.heap, self.house.ask(&request))?)
    }

    fn answer(&mut self, figures: &str) -> anyhow::Result<String> {
        let mut words = figures.split(' ');
        let reply = Reply {
            number: number(words.next())?,
            account: number(words.next())?,
            agrees: agreement(words.next())?,
        };
        Ok(outcome(self.heap, self.house.answer(&reply))?)
    }

    fn diary(&self, figures: &str) -> anyhow::Result<String> {
        let count = figures.parse::<u8>()?;
        let mut places = vec![in self.heap; NOTHING; count as usize]?;
        let filled = self.house.diary(&mut places);
        let mut text = format!(in self.heap; "filled={filled}")?;
        for place in &places {
            if *place == NOTHING {
                text.push_str(" -")?;
            } else {
                write!(text, " {place}")?;
            }
        }
        Ok(text)
    }

    fn swap(&self, figures: &str) -> anyhow::Result<String> {
        match self.house.swap(figures.parse::<i64>()?) {
            Some(swap) => Ok(shown_swap(self.heap, &swap)?),
            None => Ok(String::from_str(self.heap, "none")?),
        }
    }

    // What the house answers to a call.
    fn told(&mut self, call: &str) -> anyhow::Result<String> {
        let (name, figures) = call.split_once(' ').unwrap_or((call, ""));
        // The name is a word of the script: a `match` on it is as plain as a table of calls.
        match name {
            "open" => self.open(figures),
            "accept" => self.accept(figures),
            "ask" => self.ask(figures),
            "answer" => self.answer(figures),
            "diary" => self.diary(figures),
            "swap" => self.swap(figures),
            "session" => Ok(self.house.current().to_string(self.heap)?),
            "live" => Ok(self.house.live().to_string(self.heap)?),
            _ => bail!("no such call"),
        }
    }
}

// Each program has such a loop of its own: a shared one would take the call as a closure, and be longer.
fn main(rt: HostRuntime) -> anyhow::Result<()> {
    let heap = rt.alloc();
    let house = House::new(heap)?;
    let mut script = Script { heap, house };
    for call in BufReader::new(heap, rt.stdin())?.lines(heap) {
        let call = call?;
        rt.println(script.told(call.as_str())?)?;
    }
    Ok(())
}
