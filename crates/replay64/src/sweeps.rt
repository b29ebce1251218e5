// Written by tests/written/wide.py from replay, in f64.
// Table 3: sweeps. A row has 15 words: bytes 0 to 3 and 8 to 10 are outline A, outline B, move A, move B, radii, max fraction and slop; the answer from word 2
// on is the kind (the number of refusal, or 16 O, 17 H, 18 S, 19 F), fraction, point, normal, the three counts, and the first and second corner of A
// and of B.
use crate::floats::{put_float, put_vector};
use crate::pool::{Pool, index};
use model::Refusal;
use model64::Verdict;
use replay_rows::{Words, put, status_number};

// The kind of a row that has this answer.
fn kind(answer: Result<Verdict, Refusal>) -> u32 {
    match answer {
        Ok(v) => {
            let status = v.status;
            status_number(status)
        }
        Err(refusal) => refusal.number,
    }
}

fn put_verdict(words: &mut Words, v: Verdict) {
    put_float(words, 1, v.contact.fraction);
    put_vector(words, 2, v.contact.point);
    put_vector(words, 4, v.contact.normal);
    put(words, 6, v.counts.distance_calls);
    put(words, 7, v.counts.searches);
    put(words, 8, v.counts.root_steps);
    put(words, 9, v.corners.a.first);
    put(words, 10, v.corners.a.second);
    put(words, 11, v.corners.b.first);
    put(words, 12, v.corners.b.second);
}

pub fn answer(row: &[u8], pool: &Pool, words: &mut Words) {
    let a = pool.outline(index(row, 0));
    let b = pool.outline(index(row, 1));
    let request = pool.request(row);
    let answer = sweep_numbers64::told(sweep_numbers64::sweep_of(a, b, &request));
    put(words, 0, kind(answer));
    match answer {
        Ok(v) => put_verdict(words, v),
        Err(_) => {}
    }
}
