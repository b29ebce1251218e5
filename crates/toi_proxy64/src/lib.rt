// Written by tests/written/wide.py from toi_proxy, in f64.
// A proxy record that refers to a lent list of coordinates, with its radius: thin functions that hand the list to the outlines' own.
#![tactic(auto)]

mod point_list;

ghost use Rattle.std.specs.Prelude.{◌≡◌};
ghost use Rattle.std.specs.Float.{binary64};
ghost use Rattle.model64.specs.Distance.{proxy_distance};
ghost use Rattle.model64.specs.Second.{support_answer};
ghost use Rattle.model64.specs.Corners.{sweep};

use model::{Refusal, SimplexCache, SupportPair};
use model64::{Distance, Pose, Sweep, Swept, Vector};
pub use point_list::support_points;

// An outline by its list x0 y0 x1 y1 .., and the radius around it.
#[derive(Clone, Copy)]
pub struct ToiProxy<'a> {
    pub points: &'a [f64],
    pub radius: f64,
}

// A proxy of a lent list; nothing is checked before it is used.
pub fn new<'a>(points: &'a [f64], radius: f64) -> ToiProxy<'a>
    ensures { (result.points ≡ points.entry) × (result.radius ≡ radius) }
{
    ToiProxy { points, radius }
}

// The list that a proxy refers to, lent for as long as it was.
pub fn points<'a>(proxy: ToiProxy<'a>) -> &'a [f64]
    ensures { result ≡ proxy.entry.points }
{
    proxy.points
}

// The radius of a proxy.
pub fn radius<'a>(proxy: ToiProxy<'a>) -> f64
    ensures { result ≡ proxy.entry.radius }
{
    proxy.radius
}

// Which points of a proxy lie farthest along a direction, the first and the second; or the number of its refusal.
pub fn support<'a>(proxy: ToiProxy<'a>, direction: Vector) -> Result<SupportPair, Refusal>
    ensures { result ≡ support_answer binary64 proxy.entry.points.now direction }
{
    outline64::support(proxy.points, direction)
}

// The distance of two proxies, B's by its pose in the frame of A, started from a cache of their pair; or the number of a refusal.
pub fn proxy_distance<'a, 'b>(
    pos12: Pose,
    proxy_a: ToiProxy<'a>,
    proxy_b: ToiProxy<'b>,
    use_radii: bool,
    pair: u32,
    cache: SimplexCache,
) -> Distance
    ensures { result ≡ proxy_distance binary64 pos12 proxy_a.entry.points.now proxy_a.entry.radius proxy_b.entry.points.now
        proxy_b.entry.radius use_radii pair cache }
{
    distance64::proxy_distance::proxy_distance(
        pos12,
        proxy_a.points,
        proxy_a.radius,
        proxy_b.points,
        proxy_b.radius,
        use_radii,
        pair,
        cache,
    )
}

// When two proxies, each on its way, come within the target distance; or the number of a refusal.
pub fn sweep_time_of_impact<'a, 'b>(
    proxy_a: ToiProxy<'a>,
    sweep_a: Sweep,
    proxy_b: ToiProxy<'b>,
    sweep_b: Sweep,
    max_fraction: f64,
    linear_slop: f64,
) -> Swept
    ensures { result ≡ sweep binary64 proxy_a.entry.points.now proxy_a.entry.radius sweep_a proxy_b.entry.points.now
        proxy_b.entry.radius sweep_b max_fraction linear_slop }
{
    sweep_toi64::sweep_time_of_impact(
        proxy_a.points,
        proxy_a.radius,
        sweep_a,
        proxy_b.points,
        proxy_b.radius,
        sweep_b,
        max_fraction,
        linear_slop,
    )
}
