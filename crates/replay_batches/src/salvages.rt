// Table 10: cases of `salvage`. The input is handed on in the pieces of `packed`, each behind what the one before it left.
use crate::cases;
use crate::packed::PIECE;
use replay_rows::Words;
use salvage_walk::Walk;

#[derive(Clone, Copy)]
struct Texts {
    left: usize,
    walk: Walk,
    at: usize,
    file: usize,
}

// A piece's texts behind those before it.
fn salvage_piece(
    piece: &[u8],
    texts: Texts,
    buffer: &mut [u8],
    out: &mut [u8],
    file: &mut [u8],
) -> Texts {
    let mut more = io::buffer();
    let mut kept = io::buffer();
    let walk = texts.walk;
    let count = text::put_text(buffer, texts.left, piece);
    let salvaged = salvage_walk::salvage_part(buffer, count, walk, &mut kept, &mut more);
    let walk = salvaged.walk;
    Texts {
        left: salvaged.left,
        walk,
        at: cases::append(out, texts.at, &more, salvaged.text),
        file: cases::append(file, texts.file, &kept, salvaged.file),
    }
}

fn salvage_input(input: &[u8], out: &mut [u8], file: &mut [u8]) -> Texts {
    let mut space = io::buffer();
    let buffer: &mut [u8] = &mut space;
    let walk = Walk {
        kept: 0,
        skipped: 0,
        run: 0,
    };
    let mut texts = Texts {
        left: 0,
        walk,
        at: 0,
        file: 0,
    };
    for piece in input.chunks(PIECE) {
        texts = salvage_piece(piece, texts, buffer, out, file);
    }
    texts
}

// Both lines of the end behind what was told.
fn tell_end(texts: Texts, out: &mut [u8]) -> usize {
    let mut last = [0u8; 64];
    let walk = texts.walk;
    let n = salvage_walk::tell_last_run(texts.left, walk, &mut last);
    let at = cases::append(out, texts.at, &last, n);
    let m = salvage_walk::tell_total(texts.left, walk, &mut last);
    cases::append(out, at, &last, m)
}

pub fn answer(row: &[u8], words: &mut Words) {
    if let Some(case) = cases::split(row) {
        let mut out = io::large_buffer();
        let mut file = io::large_buffer();
        let texts = salvage_input(case.input, &mut out, &mut file);
        let file_end = texts.file;
        let told = tell_end(texts, &mut out);
        if let (Some(out), Some(file)) = (out.get(..told), file.get(..file_end)) {
            case.tell(out, b"", file, words);
        }
    }
}
