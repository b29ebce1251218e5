// Replays stored answers from bytes to text, as `replay` does those of the oracle's calls: blocks with their lines, and the cases of the programs. Parts,
// rows and what is printed are as there; there is no pool.
#![tactic(auto)]

mod blocks;
mod cases;
mod conversions;
mod first_contacts;
mod packed;
mod reports;
mod routes;
mod salvages;
mod table;
mod unpacked;

use replay_rows::Counts;
use std::io::{Read, Result};
use std::ops::ControlFlow;

fn run<R: Read>(input: &mut R) -> Result<Counts> {
    let mut counts = replay_rows::nothing();
    let mut buffer = io::large_buffer();
    streams::each_part(input, &mut buffer, |part| -> Result<ControlFlow<()>> {
        let part = part?;
        if part.is_empty() {
            return Ok(ControlFlow::Break(()));
        }
        table::replay(part, &mut counts);
        Ok(ControlFlow::Continue(()))
    })?;
    Ok(counts)
}

fn main(rt: HostRuntime) -> Result<()> {
    let counts = run(&mut rt.stdin())?;
    replay_rows::print(&mut rt.stdout(), &counts)
}
