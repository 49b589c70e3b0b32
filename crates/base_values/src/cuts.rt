//! Bytes cut at a byte, and into lines.
ghost use Rattle.std.specs.Prelude.{◌≡◌, ◌≢◌, ℕ, ◌<◌, ◌≤◌, ◌++◌, length, slice_index, MatchOption};
ghost use Rattle.base_values.specs.Separators.{Lacks, BeginsWith, IsLineThen};

/// The bytes before the first line feed and those after it, where there is one.
pub fn first_line(bytes: &[u8]) -> Option<(&[u8], &[u8])>
    ensures { MatchOption result (Lacks 10 bytes.now) (λ p. IsLineThen bytes.now p.0.now p.1.now) }
{
    let (line, rest) = cut(bytes, b'\n');
    match rest {
        [_, after @ ..] => Some((line, after)),
        [] => None,
    }
}

/// The bytes before the first one of this kind, and those from it on.
pub fn cut(bytes: &[u8], byte: u8) -> (&[u8], &[u8])
    ensures whole { bytes.now ≡ result.0.now ++ result.1.now }
    ensures front { Lacks byte result.0.now }
    ensures back { BeginsWith byte result.1.now }
{
    bytes.split_at(length_before(bytes, byte))
}

/// How many bytes stand before the first one of this kind.
pub fn length_before(bytes: &[u8], byte: u8) -> usize
    ensures bound { result ≤ length bytes.now }
    ensures before { (k : ℕ) → k < result → slice_index bytes.now k ≢ byte }
    ensures found { result < length bytes.now → slice_index bytes.now result ≡ byte }
{
    for (i, b) in bytes.iter().enumerate() {
        if *b == byte {
            return i;
        }
    }
    bytes.len()
}
