// Numbers read from a line into lent words, byte by byte. Nothing is refused here: who asks prints what was read, and compares.
ghost use Rattle.std.specs.Prelude.{◌≡◌, ◌≤◌, ◌<◌};
ghost use Rattle.text.specs.Read.{hex_digit, base_at, next_count, next_value, next_words, stored};

// What a byte stands for as a digit, 0 to 9 and A to F; 16 where it is none.
pub fn hex_digit(x: u8) -> u64
    ensures { result ≡ hex_digit x }
{
    match x {
        b'0'..=b'9' => (x - b'0') as u64,
        b'A'..=b'F' => (x - b'A') as u64 + 10,
        _ => 16,
    }
}

// The first numbers are decimal, the others hexadecimal.
fn base_at(decimals: usize, k: usize) -> u64
    ensures { (result ≡ base_at decimals k) × (result ≤ 16) }
{
    if k < decimals { 10 } else { 16 }
}

// The value with one digit more, modulo 2^32, and 0 after a byte that ends a number.
fn next_value(decimals: usize, x: u8, k: usize, value: u32) -> u32
    ensures { result ≡ next_value decimals x k value }
{
    if x < 48 {
        return 0;
    }
    ((value as u64 * base_at(decimals, k) + hex_digit(x)) % 0x1_0000_0000) as u32
}

fn next_count(x: u8, k: usize) -> usize
    requires { k < 0xffff_ffff_ffff_ffff }
    ensures { result ≡ next_count x k }
{
    if x < 48 { k + 1 } else { k }
}

// Stores the value where a byte ends a number and there is a place for it.
fn store(words: &mut [u32], x: u8, k: usize, value: u32)
    ensures { words.new ≡ next_words x k value words.old }
{
    if x >= 48 {
        return;
    }
    if k >= words.len() {
        return;
    }
    words[k] = value;
}

// The numbers of a line in order, so many of them decimal; those that find no place are left out, and words that get none stay.
pub fn read_numbers(line: &[u8], decimals: usize, words: &mut [u32])
    ensures { words.new ≡ stored decimals 0 0 words.old line.now }
{
    let mut k: usize = 0;
    let mut value: u32 = 0;
    for x in line {
        store(words, *x, k, value);
        value = next_value(decimals, *x, k, value);
        k = next_count(*x, k);
    }
}
