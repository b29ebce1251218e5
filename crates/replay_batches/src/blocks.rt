// Table 4: blocks with their lines. A row has 168 words: a block, and as its answer 39 words of the line that it has as that block of a file, zeros
// after the line's end, and the line's kind, as of a sweep.
use model::BlockAnswer;
use replay_rows::{Words, put, put_text, status_number};

// The kind of a row that has this answer.
fn kind(answer: BlockAnswer) -> u32 {
    match answer {
        Ok(worked) => status_number(worked.verdict.status),
        Err(refusal) => refusal.number,
    }
}

pub fn answer(row: &[u8], n: u64, words: &mut Words) {
    if let Some(block) = row.get(..512) {
        let answer = work::answer_block(block);
        let mut text = [0u8; 240];
        sheet_lines::write_line(n, answer, &mut text);
        put_text(words, &text, 39);
        put(words, 39, kind(answer));
    }
}
