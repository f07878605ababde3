//! The reserved words.
ghost use Rattle.std.specs.Prelude.{◌≡◌};
ghost use Rattle.sql_text.specs.Key as reserved;

/// The reserved words.
#[derive(Clone, Copy, Debug, PartialEq, Eq)]
pub enum Key {
    CreateKey,
    StreamKey,
    QueryKey,
    AsKey,
    SelectKey,
    DistinctKey,
    FromKey,
    WhereKey,
    AndKey,
    ExplainKey,
    DropKey,
    InKey,
    SharedKey,
    CheckpointKey,
    ResumeKey,
}

/// Returns the reserved word that a word is, in any case of letters.
#[tactic(auto, unfolding(crate::specs::Key::key_of))]
pub fn key_of(word: &[u8]) -> Option<Key>
    ensures { result ≡ reserved.key_of word.now }
{
    if word.eq_ignore_ascii_case(b"CREATE") {
        Some(Key::CreateKey)
    } else if word.eq_ignore_ascii_case(b"STREAM") {
        Some(Key::StreamKey)
    } else if word.eq_ignore_ascii_case(b"QUERY") {
        Some(Key::QueryKey)
    } else if word.eq_ignore_ascii_case(b"AS") {
        Some(Key::AsKey)
    } else if word.eq_ignore_ascii_case(b"SELECT") {
        Some(Key::SelectKey)
    } else if word.eq_ignore_ascii_case(b"DISTINCT") {
        Some(Key::DistinctKey)
    } else if word.eq_ignore_ascii_case(b"FROM") {
        Some(Key::FromKey)
    } else if word.eq_ignore_ascii_case(b"WHERE") {
        Some(Key::WhereKey)
    } else if word.eq_ignore_ascii_case(b"AND") {
        Some(Key::AndKey)
    } else if word.eq_ignore_ascii_case(b"EXPLAIN") {
        Some(Key::ExplainKey)
    } else if word.eq_ignore_ascii_case(b"DROP") {
        Some(Key::DropKey)
    } else if word.eq_ignore_ascii_case(b"IN") {
        Some(Key::InKey)
    } else if word.eq_ignore_ascii_case(b"SHARED") {
        Some(Key::SharedKey)
    } else if word.eq_ignore_ascii_case(b"CHECKPOINT") {
        Some(Key::CheckpointKey)
    } else if word.eq_ignore_ascii_case(b"RESUME") {
        Some(Key::ResumeKey)
    } else {
        None
    }
}
