// Answers, told by a number and by what is written into lent lists.
ghost use Rattle.std.specs.Prelude.{◌≡◌, ◌+◌, ◌*◌, ◌≤◌, length};
ghost use Rattle.list_calls.specs.Entry.{contact_floats, contact_in, counts_words, status_number, sweep_number, contact_after, counts_after, ending_number};
ghost use Rattle.list_calls.specs.Entry.{output_number, output_floats, cache_words, rounds_of, distance_number, output_after, cache_after};

use model::{
    Contact, Corners, Counts, Distance, Ending, ProxyDistanceOutput, Refusal, SimplexCache, Status,
    Verdict,
};

fn store_contact(out: &mut [f32], c: Contact)
    requires { length out.old ≡ 5 }
    ensures { out.new ≡ contact_floats c }
{
    out[0] = c.fraction;
    out[1] = c.point.x;
    out[2] = c.point.y;
    out[3] = c.normal.x;
    out[4] = c.normal.y;
}

// The floats of a contact in a list of five; any other list stays.
pub fn put_contact(out: &mut [f32], c: Contact)
    ensures { out.new ≡ contact_in c out.old }
{
    if out.len() == 5 {
        store_contact(out, c);
    }
}

fn put_counts(out: &mut [u32], n: Counts, k: Corners)
    requires { length out.old ≡ 7 }
    ensures { out.new ≡ counts_words n k }
{
    out[0] = n.distance_calls;
    out[1] = n.searches;
    out[2] = n.root_steps;
    out[3] = k.a.first;
    out[4] = k.a.second;
    out[5] = k.b.first;
    out[6] = k.b.second;
}

fn status_number(status: Status) -> u32
    ensures { result ≡ status_number status }
{
    match status {
        Status::Overlapped => 16,
        Status::Hit => 17,
        Status::Separated => 18,
        Status::Failed => 19,
    }
}

// A contact, its counts and its corners, under the number of the status.
fn put_verdict(out: &mut [f32], counts: &mut [u32], v: Verdict) -> u32
    requires { (length out.old ≡ 5) × (length counts.old ≡ 7) }
    ensures { (result ≡ status_number v.status) × (out.new ≡ contact_floats v.contact)
        × (counts.new ≡ counts_words v.counts v.corners) }
{
    let contact = v.contact;
    let n = v.counts;
    let corners = v.corners;
    store_contact(out, contact);
    put_counts(counts, n, corners);
    let status = v.status;
    status_number(status)
}

// A refusal writes nothing.
pub fn tell_sweep(x: Result<Verdict, Refusal>, out: &mut [f32], counts: &mut [u32]) -> u32
    requires { (length out.old ≡ 5) × (length counts.old ≡ 7) }
    ensures { (result ≡ sweep_number x) × (out.new ≡ contact_after x out.old) × (counts.new ≡ counts_after x counts.old) }
{
    match x {
        Ok(verdict) => put_verdict(out, counts, verdict),
        Err(refusal) => refusal.number,
    }
}

fn ending_number(e: Ending) -> u32
    ensures { result ≡ ending_number e }
{
    match e {
        Ending::Touching => 16,
        Ending::Settled => 17,
        Ending::RoundLimit => 18,
    }
}

// An ending and its rounds in one word.
fn output_number(ending: Ending, rounds: u32) -> u32
    requires { rounds ≤ 20 }
    ensures { result ≡ ending_number ending + 256 * rounds }
{
    ending_number(ending) + 256 * rounds
}

fn put_output(out: &mut [f32], o: ProxyDistanceOutput)
    requires { length out.old ≡ 7 }
    ensures { out.new ≡ output_floats o }
{
    out[0] = o.point_a.x;
    out[1] = o.point_a.y;
    out[2] = o.point_b.x;
    out[3] = o.point_b.y;
    out[4] = o.normal.x;
    out[5] = o.normal.y;
    out[6] = o.distance;
}

fn put_cache(words: &mut [u32], cache: SimplexCache)
    requires { length words.old ≡ 8 }
    ensures { words.new ≡ cache_words cache }
{
    let index_a = cache.index_a;
    let index_b = cache.index_b;
    // C's words, one by one in the header's order
    words[0] = cache.pair;
    words[1] = cache.count as u32;
    words[2] = index_a[0];
    words[3] = index_a[1];
    words[4] = index_a[2];
    words[5] = index_b[0];
    words[6] = index_b[1];
    words[7] = index_b[2];
}

// A measurement and the cache, under the number of the ending and the rounds.
fn put_measured(
    words: &mut [u32],
    out: &mut [f32],
    o: ProxyDistanceOutput,
    cache: SimplexCache,
) -> u32
    requires { (length words.old ≡ 8) × (length out.old ≡ 7) × (o.iterations ≤ 20) }
    ensures { (result ≡ output_number o) × (words.new ≡ cache_words cache) × (out.new ≡ output_floats o) }
{
    put_cache(words, cache);
    put_output(out, o);
    let ending = o.ending;
    output_number(ending, o.iterations)
}

// A refusal writes nothing.
pub fn tell_distance(d: Distance, words: &mut [u32], out: &mut [f32]) -> u32
    requires { (length words.old ≡ 8) × (length out.old ≡ 7) × (rounds_of d.answer ≤ 20) }
    ensures { (result ≡ distance_number d.answer) × (words.new ≡ cache_after d.answer d.cache words.old)
        × (out.new ≡ output_after d.answer out.old) }
{
    let answer = d.answer;
    let cache = d.cache;
    match answer {
        Ok(o) => put_measured(words, out, o, cache),
        Err(refused) => refused.number,
    }
}
