//! The comparison with the format's own words.
ghost use Rattle.std.specs.Prelude.{◌≡◌, bytes_eq};

/// Returns `true` if the bytes are those of the word.
pub fn is_word(bytes: &[u8], word: &str) -> bool
    ensures { result ≡ bytes_eq bytes.now word.now }
{
    bytes == word.as_bytes()
}
