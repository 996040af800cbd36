// Reads a cash sheet on standard input and prints the report on it.
// Only the front of the input that decides the report is read, so any input is answered at once.
#![tactic(auto)]

use sheet::report::{FRONT, report};
use std::io::Read;

fn main(rt: HostRuntime) -> anyhow::Result<()> {
    let mut front = Vec::new(rt.alloc());
    rt.stdin().take(FRONT as u64).read_to_end(&mut front)?;
    rt.print(report(rt.alloc(), &front)?)?;
    Ok(())
}
