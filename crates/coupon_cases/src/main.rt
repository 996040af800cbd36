// Runs a table of coupons on standard input, a case to a line, and prints what the coupon library answers.
//   line KIND N K TRM LETTER A B RATE:DAYS ..   the coupon of a line for the long side
//   fixed, variable, dollars or alignment with their figures: what a C host is answered
#![tactic(auto)]

use anyhow::{Context, bail};
use coupons::exports::{runtsigo_alignment, runtsigo_dollars, runtsigo_fixed, runtsigo_variable};
use coupons::legs::{CouponLine, Kind};
use coupons::lines::{Terms, coupon};
use coupons::overnight::Observation;
use std::alloc::Global;
use std::io::{BufRead, BufReader};

// A word's number. Another program has this function too: a crate for the two to share would be longer than the function.
fn number(word: Option<&str>) -> anyhow::Result<i64> {
    Ok(word.context("a figure is missing")?.parse::<i64>()?)
}

fn kind_of(word: Option<&str>) -> anyhow::Result<Kind> {
    word.and_then(|word| word.parse::<char>().ok())
        .and_then(|letter| Kind::try_from(letter).ok())
        .context("no such kind")
}

// A rate and its days, as RATE:DAYS.
fn observation(word: &str) -> anyhow::Result<Observation> {
    let (rate, days) = word.split_once(':').context("no observation")?;
    Ok(Observation {
        rate: rate.parse::<i64>()?,
        days: days.parse::<i64>()?,
    })
}

// The coupon of a line, or its fault; nominals and TRM as the engine has checked them before.
fn told(
    heap: Global,
    terms: &Terms,
    trm: i64,
    line: &CouponLine,
    observations: &[Observation],
) -> anyhow::Result<String> {
    let millions = terms.millions.unsigned_abs();
    let thousands = terms.thousands.unsigned_abs();
    if millions > 100_000 || thousands > 100_000 || trm.unsigned_abs() > 2_000_000 {
        bail!("a figure is outside its limits");
    }
    match coupon(terms, trm, line, observations) {
        Ok(centavos) => {
            let centavos = centavos.get();
            Ok(format!(in heap; "coupon={centavos}")?)
        }
        Err(fault) => {
            let number = fault.refusal().number();
            let observation = fault.observation();
            Ok(format!(in heap; "fault={number} observation={observation}")?)
        }
    }
}

fn line(heap: Global, figures: &str) -> anyhow::Result<String> {
    let mut words = figures.split(' ');
    let kind = kind_of(words.next())?;
    let millions = number(words.next())?;
    let thousands = number(words.next())?;
    let trm = number(words.next())?;
    let letter = words
        .next()
        .context("no letter")?
        .chars()
        .next()
        .context("no letter")?;
    let figures = (number(words.next())?, number(words.next())?);
    let line = CouponLine {
        swap: 1,
        letter,
        figures,
    };
    let observations: Vec<Observation> = words.map(observation).try_collect(heap)?;
    let terms = Terms {
        kind,
        millions,
        thousands,
    };
    told(heap, &terms, trm, &line, &observations)
}

// What a C host is answered: -2^63 is a refusal.
fn formula(heap: Global, name: &str, figures: &str) -> anyhow::Result<String> {
    let mut words = figures.split(' ');
    let a = number(words.next())?;
    let b = number(words.next())?;
    let c = number(words.next())?;
    // The name is a word of the case: a `match` on it is as plain as a table of calls.
    let centavos = match name {
        "fixed" => runtsigo_fixed(a, b, c),
        "variable" => runtsigo_variable(a, b, c),
        "dollars" => runtsigo_dollars(a, b, c, number(words.next())?),
        "alignment" => runtsigo_alignment(a, b, c),
        _ => bail!("no such formula"),
    };
    Ok(centavos.to_string(heap)?)
}

fn answer(heap: Global, case: &str) -> anyhow::Result<String> {
    let (name, figures) = case.split_once(' ').context("no such case")?;
    if name == "line" {
        line(heap, figures)
    } else {
        formula(heap, name, figures)
    }
}

// Each program has this loop of its own: a shared one would take the call as a closure, and be longer.
fn main(rt: HostRuntime) -> anyhow::Result<()> {
    let heap = rt.alloc();
    for case in BufReader::new(heap, rt.stdin())?.lines(heap) {
        let case = case?;
        rt.println(answer(heap, case.as_str())?)?;
    }
    Ok(())
}
