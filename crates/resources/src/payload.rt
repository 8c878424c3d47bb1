// A payload: a value that is written as 64-bit words and read back.
ghost use Rattle.std.specs.Prelude.{◌≡◌, ℕ, ◌^◌, ◌<◌, ◌≤◌, List, ◌++◌, ◌%◌, length, take, drop};

// The longest batch, in words: what one block of a store holds.
pub const BATCH_WORDS: usize = 64;

// The 32-bit number of a word, whatever its high bits.
pub(crate) fn low(word: u64) -> u32
    ensures { result ≡ word % 2 ^ 32 }
{
    (word & 0xffff_ffff) as u32
}

pub trait Payload: Sized {
    // How many words a value has.
    const WORDS: usize;

    ghost WORDS: { ℕ };

    ghost words: { Self → List ℕ };

    ghost reading: { List ℕ → Self };

    ghost rows_of: { Self → ℕ };

    ghost size_of: { Self → ℕ };

    fn rows(&self) -> u32
        ensures { result ≡ rows_of self.now };

    fn size(&self) -> u32
        ensures { result ≡ size_of self.now };

    // Writes the words to the front of the place, whose rest stays.
    fn write(&self, place: &mut [u64; 64])
        ensures { place.new ≡ words self.now ++ drop WORDS place.old };

    // Reads the front of the place, whatever the words are.
    fn read(place: &[u64; 64]) -> Self
        ensures { result ≡ reading (take WORDS place.now) };

    ghost narrow: { (1 ≤ WORDS) × (WORDS ≤ 64) };

    ghost long: { (x : Self) → length (words x) ≡ WORDS };

    ghost back: { (x : Self) → reading (words x) ≡ x };

    ghost small: { (x : Self) → (rows_of x < 2 ^ 32) × (size_of x < 2 ^ 32) };
}

// Writes a value to the front of the place and reads it back: it is the same value.
pub fn round_trip<P: Payload>(x: &P, place: &mut [u64; 64]) -> P
    ensures { result ≡ x.now }
{
    x.write(place);
    P::read(place)
}
