// A word of 64 marks.
ghost use Rattle.std.specs.Prelude.{◌≡◌, ◌≢◌, ℕ, ◌<◌, ◌≤◌, nat_eq};
ghost use Rattle.std.specs.Int.{bit_at};

/// The word with this bit set.
pub fn with_bit(word: u64, k: u32) -> u64
    requires { k < 64 }
    ensures set { bit_at result k ≡ 1 }
    ensures others { (i : ℕ) → i ≢ k → bit_at result i ≡ bit_at word i }
{
    word | (1 << k)
}

/// The word with this bit cleared.
pub fn without_bit(word: u64, k: u32) -> u64
    requires { k < 64 }
    ensures clear { bit_at result k ≡ 0 }
    ensures others { (i : ℕ) → i < 64 → i ≢ k → bit_at result i ≡ bit_at word i }
{
    word & !(1 << k)
}

/// Whether this bit is set.
pub fn has_bit(word: u64, k: u32) -> bool
    requires { k < 64 }
    ensures { result ≡ nat_eq (bit_at word k) 1 }
{
    (word >> k) & 1 == 1
}

/// The bits below bit k.
pub fn bits_below(word: u64, k: u32) -> u64
    requires { k < 64 }
    ensures kept { (i : ℕ) → i < k → bit_at result i ≡ bit_at word i }
    ensures cleared { (i : ℕ) → k ≤ i → bit_at result i ≡ 0 }
{
    word & ((1 << k) - 1)
}

/// The bits from bit k on.
pub fn bits_from(word: u64, k: u32) -> u64
    requires { k < 64 }
    ensures kept { (i : ℕ) → k ≤ i → i < 64 → bit_at result i ≡ bit_at word i }
    ensures cleared { (i : ℕ) → i < k → bit_at result i ≡ 0 }
{
    word & (u64::MAX << k)
}

/// The highest bit that is set, where one is.
pub fn highest_bit(word: u64) -> u32
    requires { 0 < word }
    ensures within { result < 64 }
    ensures set { bit_at word result ≡ 1 }
    ensures above { (i : ℕ) → result < i → bit_at word i ≡ 0 }
{
    63 - word.leading_zeros()
}

/// The lowest bit that is set, where one is.
pub fn lowest_bit(word: u64) -> u32
    requires { 0 < word }
    ensures within { result < 64 }
    ensures set { bit_at word result ≡ 1 }
    ensures below { (i : ℕ) → i < result → bit_at word i ≡ 0 }
{
    word.trailing_zeros()
}
