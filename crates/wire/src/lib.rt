// Bytes and words in lent bytes, little-endian. A byte that is missing counts as 0, so every place can be asked.
#![tactic(auto)]

ghost use Rattle.std.specs.Prelude.{◌≡◌};
ghost use Rattle.model.specs.Wire as Wire;
ghost use Rattle.wire.specs.Bytes.{word_bytes};

// The byte at place k.
pub fn byte(bytes: &[u8], k: usize) -> u8
    ensures { result ≡ Wire.byte bytes.now k }
{
    if k < bytes.len() { bytes[k] } else { 0 }
}

// The word of the four bytes from place k on. Where all four are there they are read with no further test, as one.
pub fn word(bytes: &[u8], k: usize) -> u32
    ensures { result ≡ Wire.word bytes.now k }
{
    if bytes.len() <= k {
        return 0;
    }
    let rest = &bytes[k..];
    if rest.len() < 4 {
        return u32::from_le_bytes([byte(rest, 0), byte(rest, 1), byte(rest, 2), byte(rest, 3)]);
    }
    u32::from_le_bytes([rest[0], rest[1], rest[2], rest[3]])
}

// A word's four bytes.
pub fn word_bytes(w: u32) -> [u8; 4]
    ensures { result ≡ word_bytes w }
{
    w.to_le_bytes()
}
