// Runs a table of sheets on standard input, a case to a line, and prints what the sheet library answers.
//   read HEX                       the report on those bytes
//   write ROOM SESSION NET NET ..  the writer's answer, and the buffer of so much room after it
#![tactic(auto)]

use anyhow::{Context, anyhow};
use refusal::Fault;
use sheet::report::report;
use sheet::writer::write;
use std::alloc::Global;
use std::fmt::{self, Display};
use std::io::{BufRead, BufReader};

// The value of a hexadecimal digit. By hand, since the library's conversions take capital letters too.
fn nibble(digit: u8) -> Option<u8> {
    match digit {
        b'0'..=b'9' => Some(digit - b'0'),
        b'a'..=b'f' => Some(digit - b'a' + 10),
        _ => None,
    }
}

// The byte that a pair of hexadecimal digits writes.
fn byte(pair: &[u8]) -> anyhow::Result<u8> {
    let [high, low] = pair else {
        return Err(anyhow!("a digit with no partner"));
    };
    let high = nibble(*high).context("no digit")?;
    let low = nibble(*low).context("no digit")?;
    Ok((high << 4) | low)
}

fn bytes_of(heap: Global, hex: &str) -> anyhow::Result<Vec<u8>> {
    hex.as_bytes().chunks(2).map(byte).try_collect(heap)
}

fn net(word: &str) -> anyhow::Result<i64> {
    Ok(word.parse::<i64>()?)
}

// What the writer answered, as it is printed.
#[derive(Drop)]
struct Written(Result<usize, Fault>);

impl Display for Written {
    fn fmt<W: fmt::Write>(&self, f: &mut fmt::Formatter<W>) -> fmt::Result {
        match &self.0 {
            Ok(n) => writeln!(f, "bytes={n}"),
            Err(fault) => {
                let number = fault.refusal().number();
                let line = fault.line();
                write!(f, "fault={number}\nline={line}\n")
            }
        }
    }
}

// The writer's answer on a buffer of 0xaa, and the buffer after it.
fn run_writer(heap: Global, figures: &str) -> anyhow::Result<String> {
    let mut words = figures.split(' ');
    let room = words.next().context("no room")?.parse::<usize>()?;
    let session = words.next().context("no session")?.parse::<i64>()?;
    let nets: Vec<i64> = words.map(net).try_collect(heap)?;
    let mut buffer = vec![in heap; 0xaau8; room]?;
    let answer = Written(write(session, &nets, &mut buffer));
    let mut out = format!(in heap; "{answer}buffer=")?;
    // in parts, so that a large buffer's digits stand in memory once
    for part in buffer.chunks(4096) {
        out.push_str(hex::encode(heap, part)?.as_str())?;
    }
    out.push_str("\n")?;
    Ok(out)
}

// The first word of a case says what is run: a `match` on it is as plain as a table of calls.
fn answer(heap: Global, case: &str) -> anyhow::Result<String> {
    match case.split_once(' ') {
        Some(("read", hex)) => Ok(report(heap, &bytes_of(heap, hex)?)?),
        Some(("write", figures)) => run_writer(heap, figures),
        _ => Err(anyhow!("no such case")),
    }
}

// Each program has such a loop of its own: a shared one would take the call as a closure, and be longer.
fn main(rt: HostRuntime) -> anyhow::Result<()> {
    let heap = rt.alloc();
    for line in BufReader::new(heap, rt.stdin())?.lines(heap) {
        let line = line?;
        rt.print(answer(heap, line.as_str())?)?;
    }
    Ok(())
}
