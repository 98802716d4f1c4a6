// Where a byte stands, and the first word.
ghost use Rattle.std.specs.Prelude.{◌≡◌, ◌≢◌, ℕ, ◌<◌, ◌≤◌, ◌∷◌, length, slice_index, MatchOption, option_copied};
ghost use Rattle.cert_read.specs.Lines.{words_of};
ghost use Rattle.cert_read.specs.Words.{words_behind};

/// The first place of a byte that does not stand in the first `from` places, or the length where it stands nowhere.
pub(crate) fn place_of(byte: u8, from: usize, bytes: &[u8]) -> usize
    requires within { from ≤ length bytes.now }
    requires before { (k : ℕ) → k < from → slice_index bytes.now k ≢ byte }
    ensures within { result ≤ length bytes.now }
    ensures before { (k : ℕ) → k < result → slice_index bytes.now k ≢ byte }
    ensures found { result < length bytes.now → slice_index bytes.now result ≡ byte }
{
    let mut place = from;
    while place < bytes.len() && bytes[place] != byte {
        place += 1;
    }
    place
}

/// The first word, and what stands behind the space after it.
pub(crate) fn cut(bytes: &[u8]) -> (&[u8], Option<&[u8]>)
    ensures words { words_of bytes.now ≡ result.0.now ∷ words_behind (option_copied result.1) }
    ensures shorter { MatchOption result.1 (Unit {0}) (λ s. length s.now < length bytes.now) }
{
    let size = place_of(b' ', 0, bytes);
    let (word, rest) = bytes.split_at(size);
    if rest.is_empty() {
        (word, None)
    } else {
        (word, Some(&rest[1..]))
    }
}
