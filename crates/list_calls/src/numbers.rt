// The records that lists of numbers stand for, and the distance call on them.
ghost use Rattle.std.specs.Prelude.{◌≡◌, ◌<◌, length, get_or};
ghost use Rattle.std.specs.Float.{binary32};
ghost use Rattle.list_calls.specs.Entry.{cache_of, pose_of, distance_for};

use model::{Distance, Pose, Rotation, SimplexCache};
use outline::point;

// The cache that eight words stand for.
pub fn cache_of(words: &[u32]) -> SimplexCache
    requires { (length words.now ≡ 8) × (get_or words.now 1 0 < 256) }
    ensures { result ≡ cache_of words.now }
{
    let pair = words[0];
    let count = words[1] as u8;
    let index_a = [words[2], words[3], words[4]];
    let index_b = [words[5], words[6], words[7]];
    SimplexCache {
        pair,
        count,
        index_a,
        index_b,
    }
}

// The pose that four numbers stand for, the first of a list: the turn and the shift.
pub fn pose_of(numbers: &[f32]) -> Pose
    ensures { result ≡ pose_of numbers.now }
{
    let turned = point(numbers, 0);
    let translation = point(numbers, 1);
    let rotation = Rotation {
        c: turned.x,
        s: turned.y,
    };
    Pose {
        rotation,
        translation,
    }
}

// The distance that six numbers ask for: those of the pose, then both radii.
pub fn distance_of(
    points_a: &[f32],
    points_b: &[f32],
    numbers: &[f32],
    use_radii: bool,
    pair: u32,
    cache: SimplexCache,
) -> Distance
    ensures { result ≡ distance_for binary32 points_a.now points_b.now numbers.now use_radii pair cache }
{
    let pose = pose_of(numbers);
    let radii = point(numbers, 2);
    distance::proxy_distance::proxy_distance(
        pose, points_a, radii.x, points_b, radii.y, use_radii, pair, cache,
    )
}
