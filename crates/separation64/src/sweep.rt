// Written by tests/written/wide.py from separation, in f64.
// Moves: the pose at a time, and the move seen from another origin.
ghost use Rattle.std.specs.Prelude.{◌≡◌};
ghost use Rattle.std.specs.Float.{binary64};
ghost use Rattle.model64.specs.Sweep.{transform_at};
ghost use Rattle.model64.specs.Sweep as Moves;

use ground64::{lerp, nlerp, rotate_vec, sub};
use model64::{Pose, Sweep, Vector};

// The pose at time t: the centre on its way, less the turned local centre.
pub fn transform_at(w: Sweep, t: f64) -> Pose
    ensures { result ≡ transform_at binary64 w t }
{
    let rotation = nlerp(w.q1, w.q2, t);
    let translation = sub(lerp(w.c1, w.c2, t), rotate_vec(rotation, w.local_center));
    Pose {
        rotation,
        translation,
    }
}

// The same move with both centres measured from the origin given.
pub fn shifted(w: Sweep, origin: Vector) -> Sweep
    ensures { result ≡ Moves.shifted binary64 w origin }
{
    let local_center = w.local_center;
    let c1 = sub(w.c1, origin);
    let c2 = sub(w.c2, origin);
    let q1 = w.q1;
    let q2 = w.q2;
    Sweep {
        local_center,
        c1,
        c2,
        q1,
        q2,
    }
}
