//! A word by which damage shows.

ghost use Rattle.std.specs.Prelude.{◌≡◌};
ghost use Rattle.iom_saved.specs.Check.{check_of, mixed};

// 2^64 divided by the golden ratio. It is odd, so no two sums below 2^64 have one product.
const ODD: u64 = 0x9e37_79b9_7f4a_7c15;

// The sum with one word more.
fn mixed(sum: u64, word: u64) -> u64
    ensures { result ≡ mixed sum word }
{
    sum.wrapping_add(word).wrapping_mul(ODD)
}

/// The check word of words. It is saved with them, and differs if they were damaged.
pub fn check_of(words: &[u64]) -> u64
    ensures { result ≡ check_of words.now }
{
    let mut sum = 0;
    for word in words {
        sum = mixed(sum, *word);
    }
    sum
}
