// Table 9: cases of `unpack`.
use crate::cases;
use replay_rows::Words;

pub fn answer(row: &[u8], words: &mut Words) {
    if let Some(case) = cases::split(row) {
        let mut out = io::large_buffer();
        let mut err = io::large_buffer();
        let unpacked = unpack_blocks::unpack_part(case.input, 0, &mut out, &mut err);
        let mut last = [0u8; 64];
        let rest = case.input.len() % 512;
        let n = unpack_blocks::tell_rest(rest, unpacked.blocks, &mut last);
        let told = cases::append(&mut err, unpacked.told, &last, n);
        case.tell_first(&out, unpacked.at, &err, told, words);
    }
}
