//! Words: a letter or `_`, and letters, digits and `_` behind it, all ASCII.
ghost use Rattle.std.specs.Prelude.{◌≡◌};
ghost use Rattle.std.specs.List.{list_all, prefix_len};
ghost use Rattle.sql_text.specs.Word as words;

/// Returns whether a word may begin with the byte.
pub fn is_letter(byte: u8) -> bool
    ensures { result ≡ words.is_letter byte }
{
    byte.is_ascii_alphabetic() || byte == b'_'
}

/// Returns whether a word may go on with the byte.
pub fn is_word_byte(byte: u8) -> bool
    ensures { result ≡ words.is_word_byte byte }
{
    is_letter(byte) || byte.is_ascii_digit()
}

fn are_word_bytes(bytes: &[u8]) -> bool
    ensures { result ≡ list_all words.is_word_byte bytes.now }
{
    bytes.iter().all(|b| is_word_byte(*b))
}

/// Returns whether the whole text is one word.
#[tactic(auto, using(crate::proofs::WordLists::is_word_first))]
pub fn is_word(text: &[u8]) -> bool
    ensures { result ≡ words.is_word text.now }
{
    match text {
        [] => false,
        [first, others @ ..] => is_letter(*first) && are_word_bytes(others),
    }
}

/// Returns whether a word begins the text.
pub fn begins_word(text: &[u8]) -> bool
    ensures { result ≡ words.begins_word text.now }
{
    match text {
        [] => false,
        [first, ..] => is_letter(*first),
    }
}

// How many bytes at the front may belong to a word.
fn word_len(text: &[u8]) -> usize
    ensures { result ≡ prefix_len words.is_word_byte text.now }
{
    text.iter().take_while(|b| is_word_byte(**b)).count()
}

/// Returns the longest front of bytes that a word may go on with, and what stands behind it. The front is a word where `begins_word`.
pub fn split_word(text: &[u8]) -> (&[u8], &[u8])
    ensures word { result.0.now ≡ words.word_of text.now }
    ensures behind { result.1.now ≡ words.behind_word text.now }
{
    text.split_at(word_len(text))
}
