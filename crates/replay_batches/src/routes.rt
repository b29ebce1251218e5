// Table 12: cases of `route`. The input is handed on in pieces of 32 bytes, so that a line goes through many.
use crate::cases;
use crate::packed::PIECE;
use replay_rows::Words;
use route_read::Reader;

fn read_input(input: &[u8], floats: &mut [f32], lengths: &mut [u32]) -> Reader {
    let mut reader = route_read::no_text();
    for piece in input.chunks(PIECE) {
        reader = route_read::read_part(piece, reader, floats, lengths);
    }
    reader
}

pub fn answer(row: &[u8], words: &mut Words) {
    if let Some(case) = cases::split(row) {
        let mut floats = [0.0f32; 4390];
        let mut lengths = [0u32; 33];
        let reader = read_input(case.input, &mut floats, &mut lengths);
        let mut out = [0u8; 128];
        let n = route_text::write_answer(reader, &floats, &lengths, &mut out);
        case.tell_first(&out, n, b"", 0, words);
    }
}
