// Written by tests/written/wide.py from sweep_toi, in f64.
// What the root search carries: two times, the separations at them, and how many steps led there.
ghost use Rattle.std.specs.Prelude.{◌<◌, ◌≡◌};
ghost use Rattle.std.specs.Float.{binary64};
ghost use Rattle.model.specs.SweepToi.{max_root_iterations};
ghost use Rattle.model64.specs.SweepToi as SweepToi;
ghost use Rattle.sweep_toi64.specs.Rounds as Rounds;

use model64::SweepTask;

#[derive(Clone, Copy)]
pub struct Bracket {
    pub low: f64,
    pub high: f64,
    pub at_low: f64,
    pub at_high: f64,
    pub steps: u32,
}

// The time that the next step tries: the bracket's middle where its number is even, to guarantee progress; the secant where it is odd, to converge.
pub fn tried(task: SweepTask, x: Bracket) -> f64
    ensures { result ≡ SweepToi.tried binary64 task x.steps x.low x.high x.at_low x.at_high }
{
    if x.steps % 2 == 1 {
        x.low + (task.target - x.at_low) * (x.high - x.low) / (x.at_high - x.at_low)
    } else {
        0.5 * (x.low + x.high)
    }
}

// After a step that found the separation s at the time t: the root stays between the two.
pub fn narrowed(task: SweepTask, x: Bracket, t: f64, s: f64) -> Bracket
    requires { x.steps < max_root_iterations }
    ensures { result ≡ Rounds.narrowed task x t s }
{
    if s > task.target {
        Bracket {
            low: t,
            high: x.high,
            at_low: s,
            at_high: x.at_high,
            steps: x.steps + 1,
        }
    } else {
        Bracket {
            low: x.low,
            high: t,
            at_low: x.at_low,
            at_high: s,
            steps: x.steps + 1,
        }
    }
}
