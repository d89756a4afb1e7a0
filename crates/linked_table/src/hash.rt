//! Keys that can be hashed, and the hash of two words under a seed.
ghost use Rattle.std.specs.Prelude.{◌≡◌, ◌<◌, ◌^◌, ℕ, true};
ghost use Rattle.linked_table.specs.working.FoldedNumbers.{folded};
ghost use Rattle.linked_table.specs.Hashes.{hash_of_words};

// A prime, and a power of two less one: 2^61 is 1 modulo it.
const PRIME: u64 = (1 << 61) - 1;

/// Key that can be hashed. Keys that compare equal are identical.
pub trait Key: Copy + Eq {
    /// Hash as a function of the key and the seed.
    ghost hash_of: { Self → ℕ → ℕ };

    /// Returns the hash of the key under this seed. Both its low and its high 32 bits should vary
    /// from key to key: a table takes the bucket from their product.
    fn hash_with(&self, seed: u64) -> u64
        ensures { result ≡ hash_of self.now seed };

    ghost equal_is_same: { (a b : Self) → Self.eq a b ≡ true → a ≡ b };
}

/// Key with its hash under the seed of a table.
#[derive(Drop)]
pub struct Hashed<K: Key> {
    pub key: K,
    seed: u64,
    hash: u64,
    ghost right: { hash ≡ K.hash_of key seed },
}

impl<K: Key> Hashed<K> {
    /// Hashes a key under a seed.
    pub(crate) fn under(key: K, seed: u64) -> Hashed<K>
        ensures { result.key ≡ key }
    {
        let hash = key.hash_with(seed);
        Hashed { key, seed, hash }
    }

    /// Returns the hash of the key under a seed: the stored one if it was made under this seed.
    pub(crate) fn hash_under(&self, seed: u64) -> u64
        ensures { result ≡ K.hash_of self.now.key seed }
    {
        if self.seed == seed {
            self.hash
        } else {
            self.key.hash_with(seed)
        }
    }
}

/// Returns the hash of two words under a seed: the value of the polynomial
/// `first * x^2 + second * x` modulo the prime 2^61 - 1 at a point x from 1 to 2^60 that the seed
/// chooses. Two different pairs of words below the prime have the same hash at no more than one of
/// the points. Divided by x, the difference of their polynomials has degree one at most, so one
/// root at most. So pairs that share a hash are hard to choose without the seed, and few pairs
/// chosen in another way share a bucket. Nothing here proves it.
#[inline]
pub fn hash_words(seed: u64, first: u64, second: u64) -> u64
    ensures { result ≡ hash_of_words seed first second }
{
    // The compiler removes these two folds where it knows that the word is below 2^61.
    let first = u128::from(fold(u128::from(first)));
    let second = u128::from(fold(u128::from(second)));
    let point = u128::from(seed.wrapping_add(0x9e37_79b9_7f4a_7c15) % (1 << 60) + 1);
    let inner = u128::from(fold(first * point + second));
    let outer = fold(inner * point);
    // Below twice the prime, since the point is at most 2^60.
    if outer < PRIME { outer } else { outer - PRIME }
}

// Adds the bits from 61 on to those below: the number is the same modulo `PRIME`.
#[inline(always)]
fn fold(number: u128) -> u64
    requires { number < 2 ^ 123 }
    ensures { result ≡ folded number }
{
    (number % (1 << 61)) as u64 + (number >> 61) as u64
}
