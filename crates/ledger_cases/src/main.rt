// Drives both books through a table of calls on standard input, a call to a line, and prints what each book answers.
//   open HOUSE FUND ..                        both books are opened anew; where that is refused they stay as they are
//   charge, credit or top_up MEMBER AMOUNT    the decision, then the member's fund and the house fund
//   fund MEMBER, house, funds                 the questions; the last is one for each of the 32 members
#![tactic(auto)]

use anyhow::{Context, bail};
use ledger::deposit::DepositBook;
use ledger::lines::LineBook;
use ledger::transfers::{Transfer, make};
use ledger::{Ledger, MEMBERS, Rejected};
use refusal::Fault;
use std::alloc::{AllocError, Global};
use std::fmt::Write;
use std::io::{BufRead, BufReader};

// A word's number: a member, or an amount. Each program has such a line of its own: a shared crate for it would be longer than the function.
fn number(word: Option<&str>) -> anyhow::Result<u64> {
    Ok(word.context("a figure is missing")?.parse::<u64>()?)
}

// The name is a word of the input: a `match` on it is as plain as a table of calls.
fn transfer_of(name: &str, member: usize, amount: u64) -> anyhow::Result<Transfer> {
    Ok(match name {
        "charge" => Transfer::Charge { member, amount },
        "credit" => Transfer::Credit { member, amount },
        "top_up" => Transfer::TopUp { member, amount },
        _ => bail!("no such call"),
    })
}

// What is decided on a transfer, and the two funds that it may move.
fn decided<L: Ledger>(
    heap: Global,
    ledger: &mut L,
    name: &str,
    member: usize,
    amount: u64,
) -> anyhow::Result<String> {
    let decision = match make(ledger, transfer_of(name, member, amount)?) {
        Ok(()) => "approved",
        Err(Rejected) => "rejected",
    };
    let fund = ledger.member_fund(member);
    let house = ledger.house_fund();
    Ok(format!(in heap; "{decision} fund={fund} house={house}")?)
}

// All the members' funds.
fn funds<L: Ledger>(heap: Global, ledger: &L) -> Result<String, AllocError> {
    let mut told = String::new(heap);
    for member in 0..MEMBERS {
        let fund = ledger.member_fund(member);
        write!(told, " {fund}")?;
    }
    Ok(told)
}

// What a ledger answers to a call.
fn answer<L: Ledger>(heap: Global, ledger: &mut L, call: &str) -> anyhow::Result<String> {
    let mut words = call.split(' ');
    match words.next().context("no call")? {
        "house" => Ok(ledger.house_fund().to_string(heap)?),
        "funds" => Ok(funds(heap, ledger)?),
        "fund" => {
            let member = number(words.next())? as usize;
            Ok(ledger.member_fund(member).to_string(heap)?)
        }
        name => {
            let member = number(words.next())? as usize;
            decided(heap, ledger, name, member, number(words.next())?)
        }
    }
}

// The figures of an opening: the house fund, and then the members'.
fn figures(heap: Global, words: &str) -> anyhow::Result<(i64, Vec<i64>)> {
    let mut words = words.split(' ');
    let house = words.next().context("no house fund")?.parse::<i64>()?;
    // A push each: `try_collect` moves an `anyhow::Result` for every figure, and takes half as long again.
    let mut funds = Vec::new(heap);
    for word in words {
        funds.push(word.parse::<i64>()?)?;
    }
    Ok((house, funds))
}

// Puts a book that was opened in the place of the old one, which stays where the opening was refused.
fn replaced<B: Drop>(
    heap: Global,
    opened: Result<B, Fault>,
    book: &mut B,
) -> Result<String, AllocError> {
    match opened {
        Ok(new) => {
            *book = new;
            String::from_str(heap, "opened")
        }
        Err(fault) => fault.to_string(heap),
    }
}

// What both books answer to a call.
fn answers(
    heap: Global,
    deposits: &mut DepositBook,
    lines: &mut LineBook,
    call: &str,
) -> anyhow::Result<String> {
    let (deposit, line) = match call.split_once(' ') {
        Some(("open", words)) => {
            let (house, funds) = figures(heap, words)?;
            (
                replaced(heap, DepositBook::open(&funds, house), deposits)?,
                replaced(heap, LineBook::open(&funds, house), lines)?,
            )
        }
        _ => (answer(heap, deposits, call)?, answer(heap, lines, call)?),
    };
    Ok(format!(in heap; "deposit {deposit}\nline {line}\n")?)
}

// Each program has such a loop of its own: a shared one would take the call as a closure, and be longer.
fn main(rt: HostRuntime) -> anyhow::Result<()> {
    let heap = rt.alloc();
    let mut deposits = DepositBook::open(&[], 0).ok().context("no deposit book")?;
    let mut lines = LineBook::open(&[], 0).ok().context("no line book")?;
    for call in BufReader::new(heap, rt.stdin())?.lines(heap) {
        let call = call?;
        rt.print(answers(heap, &mut deposits, &mut lines, call.as_str())?)?;
    }
    Ok(())
}
