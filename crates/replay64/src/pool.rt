// Written by tests/written/wide.py from replay, in f64.
// The pool that rows refer to by bytes. Its words after a part's first four: where each of 128 outlines starts and how many numbers it has, poses of
// four, caches of eight, radii of two, moves of ten, fractions, slops, and then the outlines' numbers.
ghost use Rattle.std.specs.Prelude.{◌+◌, ◌≤◌, ◌<◌};

use model::SimplexCache;
use model64::{Pose, Rotation, Vector};

const POSES: usize = 256;

const CACHES: usize = 512;

const RADII: usize = 1024;

const MOVES: usize = 1088;

const FRACTIONS: usize = 2368;

const SLOPS: usize = 2384;

// The numbers of all words.
const NUMBERS: usize = 8188;

// What rows refer to: the bytes of the pool, and all its words as floats.
#[derive(Drop)]
pub struct Pool {
    bytes: [u8; 65536],
    numbers: [f64; NUMBERS],
}

// Byte i of a row, by which it refers to a part of the pool.
pub fn index(row: &[u8], i: usize) -> usize
    ensures { result < 256 }
{
    wire::byte(row, i) as usize
}

fn wide(x: u32) -> usize
    ensures { result < 4294967296 }
{
    x as usize
}

impl Pool {
    pub fn empty() -> Pool {
        Pool {
            bytes: io::large_buffer(),
            numbers: [0.0f64; NUMBERS],
        }
    }

    // Takes over a part, and zeros behind its end.
    pub fn fill(&mut self, part: &[u8]) {
        let n = part.len().min(65536);
        self.bytes = io::large_buffer();
        self.bytes[..n].copy_from_slice(&part[..n]);
        for i in 0..NUMBERS {
            self.numbers[i] = ground64::from_bits(replay_rows::long(&self.bytes, 32 + 8 * i));
        }
    }

    // Word i.
    fn word(&self, i: usize) -> u32
        requires { i < 4294967296 }
    {
        wire::word(&self.bytes, 32 + 8 * i)
    }

    fn number(&self, i: usize) -> f64 {
        if i < NUMBERS { self.numbers[i] } else { 0.0 }
    }

    pub fn outline(&self, i: usize) -> &[f64]
        requires { i < 256 }
    {
        let start = wide(self.word(2 * i));
        let end = start + wide(self.word(2 * i + 1));
        match self.numbers.get(start..end) {
            Some(outline) => outline,
            None => &[],
        }
    }

    pub fn pose(&self, i: usize) -> Pose
        requires { i < 256 }
    {
        let at = POSES + 4 * i;
        let rotation = Rotation {
            c: self.number(at),
            s: self.number(at + 1),
        };
        let translation = Vector {
            x: self.number(at + 2),
            y: self.number(at + 3),
        };
        Pose {
            rotation,
            translation,
        }
    }

    pub fn cache(&self, i: usize) -> SimplexCache
        requires { i < 256 }
    {
        let at = CACHES + 8 * i;
        let index_a = [self.word(at + 2), self.word(at + 3), self.word(at + 4)];
        let index_b = [self.word(at + 5), self.word(at + 6), self.word(at + 7)];
        SimplexCache {
            pair: self.word(at),
            count: (self.word(at + 1) % 256) as u8,
            index_a,
            index_b,
        }
    }

    // Both radii, A's as x.
    pub fn radii(&self, i: usize) -> Vector
        requires { i < 256 }
    {
        let at = RADII + 2 * i;
        Vector {
            x: self.number(at),
            y: self.number(at + 1),
        }
    }

    // Puts n numbers into a list.
    fn copy(&self, from: usize, n: usize, list: &mut [f64; 24], to: usize)
        requires { (from < 65536) × (to + n ≤ 24) }
    {
        for i in 0..n {
            list[to + i] = self.number(from + i);
        }
    }

    // The 24 numbers that ask for the sweep of a row, whose bytes 2, 3 and 8 to 10 are move A, move B, radii, max fraction and slop.
    pub fn request(&self, row: &[u8]) -> [f64; 24] {
        let mut list = [0.0f64; 24];
        self.copy(RADII + 2 * index(row, 8), 2, &mut list, 0);
        self.copy(FRACTIONS + index(row, 9), 1, &mut list, 2);
        self.copy(SLOPS + index(row, 10), 1, &mut list, 3);
        self.copy(MOVES + 10 * index(row, 2), 10, &mut list, 4);
        self.copy(MOVES + 10 * index(row, 3), 10, &mut list, 14);
        list
    }
}
