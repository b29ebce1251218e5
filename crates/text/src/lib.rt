// Numbers and texts written into lent bytes from a place on, and numbers read back from a line.
#![tactic(auto)]

mod copied;
mod draft;
mod put;
mod read;

pub use draft::Draft;
pub use put::{put_hex, put_number, put_text, put_wide_hex};
pub use read::{hex_digit, read_numbers};
