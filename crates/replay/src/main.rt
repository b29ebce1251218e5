// Replays the oracle's stored answers, bit for bit with all NaNs as one: operations, distance calls, sweeps and plates. Standard input holds parts of
// 65,536 bytes: the number of a table, how many of its rows came before, two words of 0, and rows. A part of table 0 is the pool that the rows after it
// refer to. Prints, by table and kind, how many rows there were, how many differ, and how many were noticed to differ when the stored answer was spoiled
// on purpose.
#![tactic(auto)]

mod distances;
mod floats;
mod operations;
mod plates;
mod pool;
mod sweeps;
mod table;

use pool::Pool;
use replay_rows::Counts;
use std::io::{Read, Result};
use std::ops::ControlFlow;

// The table whose parts are pools.
const POOL: u32 = 0;

fn run<R: Read>(input: &mut R) -> Result<Counts> {
    let mut pool = Pool::empty();
    let mut counts = replay_rows::nothing();
    let mut buffer = io::large_buffer();
    streams::each_part(input, &mut buffer, |part| -> Result<ControlFlow<()>> {
        let part = part?;
        if part.is_empty() {
            return Ok(ControlFlow::Break(()));
        }
        if wire::word(part, 0) == POOL {
            pool.fill(part);
        } else {
            table::replay(part, &pool, &mut counts);
        }
        Ok(ControlFlow::Continue(()))
    })?;
    Ok(counts)
}

fn main(rt: HostRuntime) -> Result<()> {
    let counts = run(&mut rt.stdin())?;
    replay_rows::print(&mut rt.stdout(), &counts)
}
