//! Some conditions of a list in which those of all parts stand.
ghost use Rattle.std.specs.Prelude.{◌≡◌, ◌↔◌, true};

/// Some conditions of a list: the number of the first, and that behind the last.
#[derive(Clone, Copy, Debug, Default, PartialEq, Eq, Drop)]
pub struct Span {
    pub from: u32,
    pub to: u32,
}

impl Span {
    /// Returns whether the span ends before the first condition of the list, so that it has none.
    pub fn is_none(self) -> bool
        ensures { (result ≡ true) ↔ (self.to ≡ 0) }
    {
        self.to == 0
    }
}

/// Returns whether two spans are the same.
pub fn is_span(span: Span, other: Span) -> bool
    ensures { result ≡ true → span ≡ other }
{
    span.from == other.from && span.to == other.to
}
