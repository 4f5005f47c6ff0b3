// How numbers are read from and stored in runs of bytes, low byte first.
ghost use Rattle.std.specs.Prelude.{◌≡◌, ◌+◌, ◌≤◌, ℕ, length};
ghost use Rattle.wire.specs.Choice.{bit};
ghost use Rattle.wire.specs.Numbers.{get, put};

// The bytes of a u16, a u32 and a u64.
const U16: usize = 2;

const U32: usize = 4;

const U64: usize = 8;

// The places of a number's bytes, from the third on.
const THIRD: usize = 2;

const FOURTH: usize = 3;

const FIFTH: usize = 4;

const SIXTH: usize = 5;

const SEVENTH: usize = 6;

const EIGHTH: usize = 7;

// A flag as a number.
pub fn bit_of(b: bool) -> u8
    ensures value { result ≡ bit b }
    ensures small { result ≤ 1 }
{
    u8::from(b)
}

// A number of a fixed size in bytes.
pub trait Number: Copy {
    const SIZE: usize;

    ghost SIZE: { ℕ };

    ghost value: { Self → ℕ };

    // The number in the bytes of s from `at`.
    fn get(s: &[u8], at: usize) -> Self
        requires { at + SIZE ≤ length s.now }
        ensures { value result ≡ get SIZE s.now at };

    // Stores the number in the bytes of s from `at`.
    fn put(self, s: &mut [u8], at: usize)
        requires { at + SIZE ≤ length s.old }
        ensures { s.new ≡ put SIZE s.old at (value self) };
}

impl Number for u8 {
    const SIZE: usize = 1;

    ghost SIZE = { 1 };

    ghost value = { λ n. n };

    #[tactic(auto, unfolding(crate::specs::Numbers::get))]
    fn get(s: &[u8], at: usize) -> u8 {
        s[at]
    }

    #[tactic(auto, unfolding(crate::specs::Numbers::put, crate::specs::Numbers::le))]
    fn put(self, s: &mut [u8], at: usize) {
        s[at] = self;
    }
}

impl Number for u16 {
    const SIZE: usize = U16;

    ghost SIZE = { 2 };

    ghost value = { λ n. n };

    #[tactic(auto, unfolding(crate::specs::Numbers::get))]
    fn get(s: &[u8], at: usize) -> u16 {
        u16::from_le_bytes([s[at], s[at + 1]])
    }

    #[tactic(auto, unfolding(crate::specs::Numbers::put, crate::specs::Numbers::le))]
    fn put(self, s: &mut [u8], at: usize) {
        s[at..at + U16].copy_from_slice(&self.to_le_bytes());
    }
}

impl Number for u32 {
    const SIZE: usize = U32;

    ghost SIZE = { 4 };

    ghost value = { λ n. n };

    #[tactic(auto, unfolding(crate::specs::Numbers::get))]
    fn get(s: &[u8], at: usize) -> u32 {
        u32::from_le_bytes([s[at], s[at + 1], s[at + THIRD], s[at + FOURTH]])
    }

    #[tactic(auto, unfolding(crate::specs::Numbers::put, crate::specs::Numbers::le))]
    fn put(self, s: &mut [u8], at: usize) {
        s[at..at + U32].copy_from_slice(&self.to_le_bytes());
    }
}

impl Number for u64 {
    const SIZE: usize = U64;

    ghost SIZE = { 8 };

    ghost value = { λ n. n };

    #[tactic(auto, unfolding(crate::specs::Numbers::get))]
    fn get(s: &[u8], at: usize) -> u64 {
        u64::from_le_bytes([
            s[at],
            s[at + 1],
            s[at + THIRD],
            s[at + FOURTH],
            s[at + FIFTH],
            s[at + SIXTH],
            s[at + SEVENTH],
            s[at + EIGHTH],
        ])
    }

    #[tactic(auto, unfolding(crate::specs::Numbers::put, crate::specs::Numbers::le))]
    fn put(self, s: &mut [u8], at: usize) {
        s[at..at + U64].copy_from_slice(&self.to_le_bytes());
    }
}
