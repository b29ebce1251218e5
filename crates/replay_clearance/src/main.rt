// Replays stored verdicts over whole moves: table 13. A row has 168 words: a block, and as its answer 39 words of its line as that block of a file and of the TOTAL
// behind it, with no block counted before, zeros after their end, and the line's kind: its refusal, or 16 for CLEAR, 17 for TOUCH, 18 for OPEN. Parts and what is
// printed are as in `replay`.
#![tactic(auto)]

use model::Totals;
use replay_rows::{Counts, RowShape, Width, Words, put, put_text};
use std::io::{Read, Result};
use std::ops::ControlFlow;

// The number of the table.
const TABLE: u32 = 13;

// What was counted before block n of a file, were all before it refused.
fn before(n: u64) -> Totals {
    Totals {
        blocks: n,
        clear: 0,
        contact: 0,
        undecided: 0,
        refused: n,
    }
}

// The words of the text for a block with so many before it; the kind is the row's own.
fn answer(row: &[u8], n: u64, words: &mut Words) {
    if let Some(block) = row.get(..512) {
        let mut text = [0u8; 360];
        clearance_lines::write_part(block, &mut text, before(n));
        put_text(words, &text, 39);
        put(words, 39, wire::word(row, 668));
    }
}

// All whole rows of a part.
fn replay(part: &[u8], counts: &mut Counts) {
    let shape = RowShape {
        size: 672,
        kind: 668,
        answer: 512,
        words: 40,
        width: Width::Word,
    };
    replay_rows::each_row(
        part,
        TABLE,
        shape,
        counts,
        |n, row, words| answer(row, n, words),
    );
}

fn run<R: Read>(input: &mut R) -> Result<Counts> {
    let mut counts = replay_rows::nothing();
    let mut buffer = io::large_buffer();
    streams::each_part(input, &mut buffer, |part| -> Result<ControlFlow<()>> {
        let part = part?;
        if part.is_empty() {
            return Ok(ControlFlow::Break(()));
        }
        replay(part, &mut counts);
        Ok(ControlFlow::Continue(()))
    })?;
    Ok(counts)
}

fn main(rt: HostRuntime) -> Result<()> {
    let counts = run(&mut rt.stdin())?;
    replay_rows::print(&mut rt.stdout(), &counts)
}
