// One stored plate: its half sizes, and its four corners in the order of the numbers that the Rust gives them.
use crate::floats::put_float;
use replay_rows::Words;

// Words 1 and 2 of a row are the half sizes.
pub fn answer(row: &[u8], words: &mut Words) {
    let half_x = ground::from_bits(wire::word(row, 4));
    let half_y = ground::from_bits(wire::word(row, 8));
    let mut corners = [0.0f32; 8];
    // a plate that is refused leaves the zeros
    let _ = shapes::plate(half_x, half_y, &mut corners);
    for (i, corner) in corners.iter().enumerate() {
        put_float(words, i, *corner);
    }
}
