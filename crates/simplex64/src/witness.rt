// Written by tests/written/wide.py from simplex, in f64.
// The two points that a simplex names by its weights.
ghost use Rattle.std.specs.Prelude.{◌≡◌};
ghost use Rattle.std.specs.Float.{binary64};
ghost use Rattle.model64.specs.Distance as Distance;

use ground64::{add, scale};
use model64::{SimplexVertex, WitnessPoints};

// The witness points of the first count vertices; of three both are A's sum.
pub fn witness_points(simplex: [SimplexVertex; 3], count: usize) -> WitnessPoints
    ensures { result ≡ Distance.witness_points binary64 simplex count }
{
    let v1 = simplex[0];
    if count == 1 {
        let a = v1.wa;
        let b = v1.wb;
        return WitnessPoints { a, b };
    }
    let v2 = simplex[1];
    let a = add(scale(v1.wa, v1.a), scale(v2.wa, v2.a));
    if count == 2 {
        let b = add(scale(v1.wb, v1.a), scale(v2.wb, v2.a));
        return WitnessPoints { a, b };
    }
    let v3 = simplex[2];
    let p = add(a, scale(v3.wa, v3.a));
    WitnessPoints { a: p, b: p }
}
