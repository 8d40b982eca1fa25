//! Sets of `u8` numbers.

ghost use Rattle.std.specs.Prelude.{◌≡◌, ◌<◌, ℕ};
ghost use Rattle.std.specs.Int.{bit_at};

/// A set of numbers from 0 to 255, kept as one bit per number. Contracts read it with `has`, which is true
/// for the numbers in the set.
#[derive(Clone, Copy, Debug)]
pub struct ByteSet {
    words: [u64; 4],
}

/// Returns the index of the highest set bit of a word that isn't 0.
fn greatest_bit(word: u64) -> u8
    requires { 0 < word }
    ensures within { result < 64 }
    ensures set { bit_at word result ≡ 1 }
    ensures greatest { (bit : ℕ) → result < bit → bit_at word bit ≡ 0 }
{
    63 - word.leading_zeros() as u8
}

impl ByteSet {
    ghost use Rattle.std.specs.Prelude.{◌≢◌, ◌↔◌, true, false, IfSome, IfNone, IsTrue};
    ghost use Rattle.qbase.specs.ByteSet.{has, IsGreatest, HasNone};

    /// Makes an empty set.
    pub fn new() -> ByteSet
        ensures none { HasNone result }
    {
        ByteSet { words: [0; 4] }
    }

    /// Adds a number; nothing changes if the number is in the set already.
    pub fn insert(&mut self, number: u8)
        ensures inserted { has self.new number ≡ true }
        ensures others { (other : ℕ) → other ≢ number → has self.new other ≡ has self.old other }
    {
        self.words[number as usize / 64] |= 1 << (number % 64);
    }

    /// Removes a number; nothing changes if the number isn't in the set.
    pub fn remove(&mut self, number: u8)
        ensures removed { has self.new number ≡ false }
        ensures others { (other : ℕ) → other ≢ number → has self.new other ≡ has self.old other }
    {
        self.words[number as usize / 64] &= !(1 << (number % 64));
    }

    /// Returns whether a number is in the set.
    pub fn contains(&self, number: u8) -> bool
        ensures { result ≡ has self.now number }
    {
        self.words[number as usize / 64] >> (number % 64) & 1 == 1
    }

    /// Returns the greatest number in the set, or `None` if the set is empty. It reads four words, not each
    /// number.
    pub fn greatest(&self) -> Option<u8>
        ensures some { IfSome result (λ number. IsGreatest self.now number) }
        ensures none { IfNone result (HasNone self.now) }
    {
        for place in (0..4).rev() {
            let word = self.words[place];
            if word > 0 {
                return Some(place as u8 * 64 + greatest_bit(word));
            }
        }
        None
    }

    /// Returns whether the set is empty.
    pub fn is_empty(&self) -> bool
        ensures { IsTrue result ↔ HasNone self.now }
    {
        self.greatest().is_none()
    }
}
