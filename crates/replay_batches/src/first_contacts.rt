// Table 5: parts of a batch with the text of their first contact. A row has its kind, how many blocks came before the part, and the part's length in
// bytes; as its answer 6 words of the text, zeros after its end; then room for nine blocks.
use replay_rows::{Words, put_text};

// Where a row's part starts.
const PART: usize = 36;

// The part of a row; none where the row is too short.
fn part(row: &[u8]) -> Option<&[u8]> {
    let size = wire::word(row, 8) as usize;
    row.get(PART..)?.get(..size)
}

pub fn answer(row: &[u8], words: &mut Words) {
    let before = wire::word(row, 4) as u64;
    if let Some(part) = part(row) {
        let searched = any_contact_search::search_part(part, before);
        let mut text = [0u8; 24];
        any_contact_search::write_found(searched.found, &mut text);
        put_text(words, &text, 6);
    }
}
