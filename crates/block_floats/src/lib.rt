// The floats of a block, read from its bytes.
#![tactic(auto)]

ghost use Rattle.std.specs.Prelude.{◌≡◌, ◌≤◌, take, length};
ghost use Rattle.model.specs.Work as Work;

// The first n floats from a place on, at the start of room for sixteen points; more of them, or from farther on, are not read.
pub fn floats_at(part: &[u8], from: usize, n: usize) -> [f32; 32]
    ensures { (length result ≡ 32) × (from ≤ 512 → n ≤ 32 → take n result ≡ Work.floats_at part.now from n) }
{
    let mut floats = [0.0f32; 32];
    if (from > 512) | (n > 32) {
        return floats;
    }
    for i in 0..n {
        floats[i] = ground::from_bits(wire::word(part, from + 4 * i));
    }
    floats
}
