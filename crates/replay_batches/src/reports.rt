// Table 11: cases of `report`. The input has a word for how many batches there are, one for the bytes of each, and the batches one behind another.
use crate::cases;
use replay_rows::Words;

// A row has at most so many batches.
const MOST: usize = 8;

// The text of the report of batches that stand one behind another.
fn write_batches(batches: &[u8], sizes: &[u32], out: &mut [u8]) -> usize {
    let report = report_batches::report_batches(batches, sizes);
    report_lines::write_report(report, out)
}

pub fn answer(row: &[u8], words: &mut Words) {
    if let Some(case) = cases::split(row) {
        let count = wire::word(case.input, 0) as usize;
        let mut sizes = [0u32; MOST];
        if count > MOST {
            return;
        }
        for i in 0..count {
            sizes[i] = wire::word(case.input, 4 + 4 * i);
        }
        if let Some(batches) = case.input.get(4 + 4 * count..) {
            let mut text = io::buffer();
            let n = write_batches(batches, &sizes[..count], &mut text);
            case.tell_first(&text, n, b"", 0, words);
        }
    }
}
