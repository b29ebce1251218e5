// Written by tests/written/wide.py from list_calls, in f64.
// The records that lists of numbers stand for, and the distance call on them.
ghost use Rattle.std.specs.Prelude.{◌≡◌, ◌<◌, length, get_or};
ghost use Rattle.std.specs.Float.{binary64};
ghost use Rattle.list_calls64.specs.Entry.{cache_of, pose_of, distance_for};

use model::SimplexCache;
use model64::{Distance, Pose, Rotation};
use outline64::point;

// The cache that eight words stand for.
pub fn cache_of(words: &[u32]) -> SimplexCache
    requires { (length words.now ≡ 8) × (get_or words.now 1 0 < 256) }
    ensures { result ≡ cache_of words.now }
{
    let pair = words[0];
    let count = words[1] as u8;
    let index_a = [words[2], words[3], words[4]];
    let index_b = [words[5], words[6], words[7]];
    SimplexCache {
        pair,
        count,
        index_a,
        index_b,
    }
}

// The pose that four numbers stand for, the first of a list: the turn and the shift.
pub fn pose_of(numbers: &[f64]) -> Pose
    ensures { result ≡ pose_of numbers.now }
{
    let turned = point(numbers, 0);
    let translation = point(numbers, 1);
    let rotation = Rotation {
        c: turned.x,
        s: turned.y,
    };
    Pose {
        rotation,
        translation,
    }
}

// The distance that six numbers ask for: those of the pose, then both radii.
pub fn distance_of(
    points_a: &[f64],
    points_b: &[f64],
    numbers: &[f64],
    use_radii: bool,
    pair: u32,
    cache: SimplexCache,
) -> Distance
    ensures { result ≡ distance_for binary64 points_a.now points_b.now numbers.now use_radii pair cache }
{
    let pose = pose_of(numbers);
    let radii = point(numbers, 2);
    distance64::proxy_distance::proxy_distance(
        pose, points_a, radii.x, points_b, radii.y, use_radii, pair, cache,
    )
}
