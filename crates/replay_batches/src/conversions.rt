// Table 7: cases of `convert`.
use crate::cases;
use replay_rows::Words;

pub fn answer(row: &[u8], words: &mut Words) {
    if let Some(case) = cases::split(row) {
        let mut file = io::large_buffer();
        let mut text = io::buffer();
        let converted = convert_forms::convert_part(case.input, 0, &mut file, &mut text);
        if let (Some(text), Some(file)) = (text.get(..converted.text), file.get(..converted.file)) {
            case.tell(text, b"", file, words);
        }
    }
}
