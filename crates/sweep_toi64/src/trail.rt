// Written by tests/written/wide.py from sweep_toi, in f64.
// The trail of a sweep: its counts.
ghost use Rattle.std.specs.Prelude.{◌<◌, ◌≤◌, ◌+◌, ◌-◌, ◌≡◌};
ghost use Rattle.model64.specs.SweepToi as SweepToi;
ghost use Rattle.sweep_toi64.specs.Repeats.{further, since};

use model::Counts;

// With one more distance call, one more search, n more root steps.
pub fn called(counts: Counts) -> Counts
    requires { counts.distance_calls < SweepToi.max_distance_iterations }
    ensures { result ≡ SweepToi.called counts }
{
    Counts {
        distance_calls: counts.distance_calls + 1,
        searches: counts.searches,
        root_steps: counts.root_steps,
    }
}

pub fn searched(counts: Counts) -> Counts
    requires { counts.searches < 160 }
    ensures { result ≡ SweepToi.searched counts }
{
    Counts {
        distance_calls: counts.distance_calls,
        searches: counts.searches + 1,
        root_steps: counts.root_steps,
    }
}

pub fn stepped(counts: Counts, n: u32) -> Counts
    requires { counts.root_steps + n ≤ 8000 }
    ensures { result ≡ SweepToi.stepped counts n }
{
    Counts {
        distance_calls: counts.distance_calls,
        searches: counts.searches,
        root_steps: counts.root_steps + n,
    }
}

// With k searches more, each with n root steps after it.
pub fn pushed_on(counts: Counts, k: u32, n: u32) -> Counts
    requires { (counts.searches ≤ 160) × (counts.root_steps ≤ 8000) × (k ≤ 8) × (n ≤ 50) }
    ensures { result ≡ further counts k (SweepToi.counts 0 1 n) }
{
    Counts {
        distance_calls: counts.distance_calls,
        searches: counts.searches + k,
        root_steps: counts.root_steps + k * n,
    }
}

// With what came since the start, k times more.
pub fn called_on(counts: Counts, k: u32, start: Counts) -> Counts
    requires distance_calls_bound { (counts.distance_calls ≤ 20) × (counts.searches ≤ 160) × (counts.root_steps ≤ 8000) × (k ≤ 20) }
    requires distance_calls_bound_2 { (start.distance_calls ≤ counts.distance_calls) × (start.searches ≤ counts.searches) × (start.root_steps ≤ counts.root_steps) }
    ensures { result ≡ further counts k (since start counts) }
{
    Counts {
        distance_calls: counts.distance_calls + k * (counts.distance_calls - start.distance_calls),
        searches: counts.searches + k * (counts.searches - start.searches),
        root_steps: counts.root_steps + k * (counts.root_steps - start.root_steps),
    }
}
