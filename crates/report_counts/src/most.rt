// The largest counts seen, and where.
ghost use Rattle.std.specs.Prelude.{◌≡◌};
ghost use Rattle.report_counts.specs.Largest as Specs;

use model::BlockAnswer;
use std::num::wrapping_add_u64;

// A count, and the first batch and block that has it, from 1.
#[derive(Clone, Copy)]
pub struct Most {
    pub count: u32,
    pub batch: u64,
    pub block: u64,
}

// The most distance calls, separation searches and root steps; none where no block was worked.
#[derive(Clone, Copy)]
pub struct Largest {
    pub calls: Option<Most>,
    pub searches: Option<Most>,
    pub steps: Option<Most>,
}

fn seen_at(count: u32, batch: u64, block: u64) -> Option<Most>
    ensures { result ≡ Specs.seen_at count batch block }
{
    Some(Most {
        count,
        batch,
        block,
    })
}

// The larger of two, the first where they are equal; any is larger than none.
fn larger(a: Option<Most>, b: Option<Most>) -> Option<Most>
    ensures { result ≡ Specs.larger a b }
{
    match a {
        None => b,
        Some(s) => match b {
            None => a,
            Some(t) => { if s.count < t.count { b } else { a } }
        },
    }
}

// The same with its batch moved up.
fn moved(by: u64, m: Option<Most>) -> Option<Most>
    ensures { result ≡ Specs.moved by m }
{
    match m {
        None => None,
        Some(s) => seen_at(s.count, wrapping_add_u64(by, s.batch), s.block),
    }
}

// Of each count the larger.
pub fn larger_each(a: Largest, b: Largest) -> Largest
    ensures { result ≡ Specs.larger_each a b }
{
    let calls_a = a.calls;
    let searches_a = a.searches;
    let steps_a = a.steps;
    let calls_b = b.calls;
    let searches_b = b.searches;
    let steps_b = b.steps;
    let calls = larger(calls_a, calls_b);
    let searches = larger(searches_a, searches_b);
    let steps = larger(steps_a, steps_b);
    Largest {
        calls,
        searches,
        steps,
    }
}

// Each with its batch moved up.
pub fn moved_each(by: u64, a: Largest) -> Largest
    ensures { result ≡ Specs.moved_each by a }
{
    let calls = a.calls;
    let searches = a.searches;
    let steps = a.steps;
    Largest {
        calls: moved(by, calls),
        searches: moved(by, searches),
        steps: moved(by, steps),
    }
}

pub fn nowhere() -> Largest
    ensures { result ≡ Specs.nowhere }
{
    Largest {
        calls: None,
        searches: None,
        steps: None,
    }
}

// What an answer shows as that block of the first batch.
pub fn seen(block: u64, answer: BlockAnswer) -> Largest
    ensures { result ≡ Specs.seen 1 block answer }
{
    match answer {
        Ok(worked) => {
            let counts = worked.verdict.counts;
            Largest {
                calls: seen_at(counts.distance_calls, 1, block),
                searches: seen_at(counts.searches, 1, block),
                steps: seen_at(counts.root_steps, 1, block),
            }
        }
        Err(_) => nowhere(),
    }
}
