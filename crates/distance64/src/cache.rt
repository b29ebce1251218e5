// Written by tests/written/wide.py from distance, in f64.
// The cache: whether its entries name points of the two lists, and how a simplex is written to it.
ghost use Rattle.std.specs.Prelude.{◌≡◌, ◌≤◌, ltb};
ghost use Rattle.model64.specs.Distance as Model;

use model::SimplexCache;
use model64::SimplexVertex;

fn below(index: u32, limit: usize) -> bool
    ensures { result ≡ ltb index limit }
{
    (index as usize) < limit
}

// Whether the first count indices are below the limit.
fn all_below(limit: usize, indices: [u32; 3], count: usize) -> bool
    requires { count ≤ 3 }
    ensures { result ≡ Model.all_below limit indices count }
{
    let mut all = true;
    for i in 0..count {
        all = all & below(indices[i], limit);
    }
    all
}

// Whether a cache has at most three entries, each within lists of na and nb points.
pub fn cache_is_valid(cache: SimplexCache, na: usize, nb: usize) -> bool
    ensures { result ≡ Model.cache_is_valid cache na nb }
{
    let count = cache.count as usize;
    if count > 3 {
        return false;
    }
    let index_a = cache.index_a;
    let index_b = cache.index_b;
    all_below(na, index_a, count) & all_below(nb, index_b, count)
}

// The cache with the pair's number and the first count vertices; entries at or past the count keep what they held.
pub(crate) fn write_cache(
    pair: u32,
    cache: SimplexCache,
    simplex: [SimplexVertex; 3],
    count: usize,
) -> SimplexCache
    requires { count ≤ 3 }
    ensures { result ≡ Model.written pair cache simplex count }
{
    let mut index_a = cache.index_a;
    let mut index_b = cache.index_b;
    for i in 0..count {
        index_a[i] = simplex[i].index_a;
        index_b[i] = simplex[i].index_b;
    }
    SimplexCache {
        pair,
        count: count as u8,
        index_a,
        index_b,
    }
}
