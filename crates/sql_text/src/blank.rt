//! Blanks, which stand between the parts of a text and say nothing themselves.
ghost use Rattle.std.specs.Prelude.{◌≡◌};
ghost use Rattle.std.specs.List.{prefix_len, suffix_len};
ghost use Rattle.sql_text.specs.Blank as blanks;
ghost use Rattle.sql_text.specs.Blank.{without_blanks_before, without_blanks_behind, trimmed};

/// Returns whether the byte is a space or a tab.
pub fn is_blank(byte: u8) -> bool
    ensures { result ≡ blanks.is_blank byte }
{
    byte == b' ' || byte == b'\t'
}

// How many blanks stand at the front.
fn blanks_before(text: &[u8]) -> usize
    ensures { result ≡ prefix_len blanks.is_blank text.now }
{
    text.iter().take_while(|b| is_blank(**b)).count()
}

// How many blanks stand at the end.
fn blanks_behind(text: &[u8]) -> usize
    ensures { result ≡ suffix_len blanks.is_blank text.now }
{
    text.iter().rev().take_while(|b| is_blank(**b)).count()
}

/// Returns the text without the blanks at its front.
pub fn trim_start(text: &[u8]) -> &[u8]
    ensures { result.now ≡ without_blanks_before text.now }
{
    text.split_at(blanks_before(text)).1
}

/// Returns the text without the blanks at its end.
pub fn trim_end(text: &[u8]) -> &[u8]
    ensures { result.now ≡ without_blanks_behind text.now }
{
    text.split_at(text.len() - blanks_behind(text)).0
}

/// Returns the text without the blanks at both ends.
#[tactic(auto, unfolding(crate::specs::Blank::trimmed))]
pub fn trim(text: &[u8]) -> &[u8]
    ensures { result.now ≡ trimmed text.now }
{
    trim_end(trim_start(text))
}
