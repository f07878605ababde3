//! Texts that are cut at a byte, and lines.
ghost use Rattle.std.specs.Prelude.{◌≡◌, ◌∷◌, ◌<◌, ◌==◌, length, position, IfSome, IfNone};
ghost use Rattle.std.specs.List.{slice_split};
ghost use Rattle.sql_text.specs.Lines.{lines, parts_behind};

// The first place at which this byte stands.
fn place_of(text: &[u8], at: u8) -> Option<usize>
    ensures { result ≡ position (λ b. b == at) text.now }
{
    text.iter().position(|b| *b == at)
}

/// Returns the part of a text before the first such byte, and what stands behind that byte; or the whole text, where there is none.
pub fn cut(text: &[u8], at: u8) -> (&[u8], Option<&[u8]>)
    ensures parts { slice_split (λ b. b == at) text.now ≡ result.0.now ∷ parts_behind at result.1 }
    ensures whole { IfNone result.1 (result.0.now ≡ text.now) }
    ensures shorter { IfSome result.1 (λ rest. length rest.now < length text.now) }
{
    match place_of(text, at) {
        Some(place) => (&text[..place], Some(&text[place + 1..])),
        None => (text, None),
    }
}
