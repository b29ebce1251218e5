// Written by tests/written/wide.py from replay, in f64.
// Table 2: distance calls. A row has 20 words: bytes 0 to 3, 8 and 9 are outline A, outline B, pose, cache, radii, and whether the radii are used; word 2 is
// the caller's number of the pair; the answer from word 3 on is the kind (the number of refusal, or 16 touching, 17 settled, 18 round limit), the
// rounds, seven floats, and the cache.
use crate::floats::{put_float, put_vector};
use crate::pool::{Pool, index};
use distance64::proxy_distance::proxy_distance;
use model::{Ending, SimplexCache};
use model64::{Distance, ProxyDistanceOutput};
use replay_rows::{Words, put};

fn call(row: &[u8], pool: &Pool) -> Distance {
    let a = pool.outline(index(row, 0));
    let b = pool.outline(index(row, 1));
    let p = pool.pose(index(row, 2));
    let c = pool.cache(index(row, 3));
    let radii = pool.radii(index(row, 8));
    let use_radii = index(row, 9) == 1;
    let pair = wire::word(row, 16);
    proxy_distance(p, a, radii.x, b, radii.y, use_radii, pair, c)
}

fn ending_number(e: Ending) -> u32 {
    match e {
        Ending::Touching => 16,
        Ending::Settled => 17,
        Ending::RoundLimit => 18,
    }
}

fn put_output(words: &mut Words, o: ProxyDistanceOutput) {
    let ending = o.ending;
    put(words, 0, ending_number(ending));
    put(words, 1, o.iterations);
    put_vector(words, 2, o.point_a);
    put_vector(words, 4, o.point_b);
    put_vector(words, 6, o.normal);
    put_float(words, 8, o.distance);
}

fn put_cache(words: &mut Words, c: SimplexCache) {
    let a = c.index_a;
    let b = c.index_b;
    put(words, 9, c.pair);
    put(words, 10, c.count as u32);
    put(words, 11, a[0]);
    put(words, 12, a[1]);
    put(words, 13, a[2]);
    put(words, 14, b[0]);
    put(words, 15, b[1]);
    put(words, 16, b[2]);
}

pub fn answer(row: &[u8], pool: &Pool, words: &mut Words) {
    let d = call(row, pool);
    let answer = d.answer;
    let cache = d.cache;
    match answer {
        Err(refused) => put(words, 0, refused.number),
        Ok(o) => put_output(words, o),
    }
    put_cache(words, cache);
}
