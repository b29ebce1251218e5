// Texts copied to where there is room for them; the answer is the place after.
ghost use Rattle.std.specs.Prelude.{◌≡◌, ◌+◌, ◌≤◌, ◌<◌, [], ◌∷◌, ◌++◌, ltb, length};
ghost use Rattle.model.specs.Text.{capital, hex_by};
ghost use Rattle.text.specs.Put.{Put, number};

// Whether so many bytes are fewer than n from a place on.
pub fn lacks(size: usize, at: usize, n: usize) -> bool
    ensures { result ≡ ltb size (at + n) }
{
    if size < at {
        return true;
    }
    size - at < n
}

// A text as it stands.
pub fn copy(out: &mut [u8], at: usize, text: &[u8]) -> usize
    requires { at + length text.now ≤ length out.old }
    ensures { Put out.old at text.now out.new result }
{
    let end = at + text.len();
    out[at..end].copy_from_slice(text);
    end
}

// A digit, and a byte after it.
fn copy_digit(out: &mut [u8], at: usize, d: u64, end: u8) -> usize
    requires { (at + 2 ≤ length out.old) × (d < 10) }
    ensures { Put out.old at (number d end) out.new result }
{
    out[at] = b'0' + d as u8;
    let last = at + 1;
    out[last] = end;
    last + 1
}

// A number in decimal digits, and a byte after it. Most have one digit.
pub fn copy_number(out: &mut [u8], at: usize, n: u64, end: u8) -> usize
    requires { at + 21 ≤ length out.old }
    ensures { Put out.old at (number n end) out.new result }
{
    if n < 10 {
        return copy_digit(out, at, n, end);
    }
    let mut digits = [0u8; 20];
    let k = io::decimal(n, &mut digits);
    let e = copy(out, at, &digits[..k]);
    out[e] = end;
    e + 1
}

// 0 to 9, then A to F.
fn capital_digit(d: u32) -> u8
    requires { d < 16 }
    ensures { result ≡ capital d }
{
    if d < 10 {
        b'0' + d as u8
    } else {
        b'A' - 10 + d as u8
    }
}

// The eight digits of a word, and a byte after them.
pub fn hex_digits(n: u32, end: u8) -> [u8; 9]
    ensures { result ≡ hex_by 8 n ++ (end ∷ []) }
{
    let mut digits = [end; 9];
    let mut rest = n;
    for i in 0..8 {
        digits[7 - i] = capital_digit(rest % 16);
        rest /= 16;
    }
    digits
}
