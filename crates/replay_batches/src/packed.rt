// Table 8: cases of `pack`. The input is handed on in pieces of 32 bytes, so that a line goes through many.
use crate::cases;
use pack_lines::Held;
use replay_rows::Words;

// So many bytes are handed on at a time.
pub const PIECE: usize = 32;

#[derive(Clone, Copy)]
struct Texts {
    held: Held,
    at: usize,
    told: usize,
}

// A piece's texts behind those before it.
fn pack_piece(piece: &[u8], texts: Texts, out: &mut [u8], err: &mut [u8]) -> Texts {
    let mut more = io::large_buffer();
    let mut told = io::large_buffer();
    let held = texts.held;
    let packed = pack_lines::pack_part(piece, held, &mut more, &mut told);
    let line = packed.held;
    Texts {
        held: line,
        at: cases::append(out, texts.at, &more, packed.at),
        told: cases::append(err, texts.told, &told, packed.told),
    }
}

fn pack_input(input: &[u8], out: &mut [u8], err: &mut [u8]) -> Texts {
    let none = pack_lines::no_line();
    let mut texts = Texts {
        held: none,
        at: 0,
        told: 0,
    };
    for piece in input.chunks(PIECE) {
        texts = pack_piece(piece, texts, out, err);
    }
    texts
}

pub fn answer(row: &[u8], words: &mut Words) {
    if let Some(case) = cases::split(row) {
        let mut out = io::large_buffer();
        let mut err = io::large_buffer();
        let texts = pack_input(case.input, &mut out, &mut err);
        let held = texts.held;
        let mut last = [0u8; 64];
        let n = pack_lines::tell_last(held, &mut last);
        let told = cases::append(&mut err, texts.told, &last, n);
        case.tell_first(&out, texts.at, &err, told, words);
    }
}
