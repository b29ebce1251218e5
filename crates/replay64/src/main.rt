// Replays the f64 oracle's stored answers, bit for bit with all NaNs as one, as `replay` does those of f32; every word of the file has eight bytes.
#![tactic(auto)]

mod distances;
mod floats;
mod operations;
mod pool;
mod sweeps;
mod table;

use pool::Pool;
use replay_rows::Counts;
use std::io::{Read, Result};
use std::ops::ControlFlow;

// The table whose parts are pools.
const POOL: u32 = 0;

fn run<R: Read>(input: &mut R) -> Result<Counts> {
    let mut pool = Pool::empty();
    let mut counts = replay_rows::nothing();
    let mut buffer = io::large_buffer();
    streams::each_part(input, &mut buffer, |part| -> Result<ControlFlow<()>> {
        let part = part?;
        if part.is_empty() {
            return Ok(ControlFlow::Break(()));
        }
        if wire::word(part, 0) == POOL {
            pool.fill(part);
        } else {
            table::replay(part, &pool, &mut counts);
        }
        Ok(ControlFlow::Continue(()))
    })?;
    Ok(counts)
}

fn main(rt: HostRuntime) -> Result<()> {
    let counts = run(&mut rt.stdin())?;
    replay_rows::print(&mut rt.stdout(), &counts)
}
