// Words of 64 bits: their parity, and the places of their ones.
ghost use Rattle.std.specs.Prelude.{◌≡◌, ◌*◌, ◌<◌};
ghost use Rattle.sector_check.specs.Word.{parity, places, folded};

// n where the digit is 1, otherwise 0.
pub fn taken(digit: usize, n: u64) -> u64
    requires { digit < 2 }
    ensures { result ≡ digit * n }
{
    if digit == 1 { n } else { 0 }
}

// n where v's parity is 1, otherwise 0.
pub fn weighed(v: u64, n: u64) -> u64
    ensures { result ≡ parity v * n }
{
    taken(u64::count_ones(v) as usize % 2, n)
}

// The part of v below a power of two and the part above it, in one.
fn fold(v: u64, power: u64) -> u64
    requires { 0 < power }
    ensures { result ≡ folded power v }
{
    (v % power) ^ (v / power)
}

// The exclusive or of the places of v's ones. Each fold halves the word and gives one bit of it.
pub fn places_of(v: u64) -> u64
    ensures { result ≡ places 64 v }
{
    let a = fold(v, 4294967296);
    let b = fold(a, 65536);
    let c = fold(b, 256);
    let d = fold(c, 16);
    let e = fold(d, 4);
    let low = weighed(c / 16, 4) ^ (weighed(d / 4, 2) ^ weighed(e / 2, 1));
    weighed(v / 4294967296, 32) ^ (weighed(a / 65536, 16) ^ (weighed(b / 256, 8) ^ low))
}
