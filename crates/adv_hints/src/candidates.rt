//! What may stand at a place of a statement.
ghost use Rattle.std.specs.Prelude.{◌≡◌, ◌≤◌, length};
ghost use Rattle.adv_hints.specs.Candidates as candidates;
ghost use Rattle.adv_hints.specs.Groups as groups;

use arrayvec::ArrayVec;

/// What may stand at a place of a statement: a name, an integer, the column of a stream behind its point, the points and the second integer
/// of a domain, a sign or a word.
#[derive(Clone, Copy, Debug, Default, PartialEq, Eq)]
pub enum Candidate {
    #[default]
    Name,
    Integer,
    Column,
    Points,
    SecondPoint,
    Comma,
    Open,
    Close,
    Comparison,
    Create,
    Stream,
    Query,
    As,
    Select,
    Distinct,
    From,
    Where,
    And,
    Explain,
    Drop,
    In,
    Shared,
    Compact,
    Checkpoint,
    Resume,
    Lock,
    Unlock,
    To,
    End,
}

/// Candidates that may stand at one place, in the order in which they are told.
pub type Continuations = ArrayVec<Candidate, 29>;

/// All candidates, in the order in which they are told.
pub const ALL: [Candidate; 29] = [
    Candidate::Name,
    Candidate::Integer,
    Candidate::Column,
    Candidate::Points,
    Candidate::SecondPoint,
    Candidate::Comma,
    Candidate::Open,
    Candidate::Close,
    Candidate::Comparison,
    Candidate::Create,
    Candidate::Stream,
    Candidate::Query,
    Candidate::As,
    Candidate::Select,
    Candidate::Distinct,
    Candidate::From,
    Candidate::Where,
    Candidate::And,
    Candidate::Explain,
    Candidate::Drop,
    Candidate::In,
    Candidate::Shared,
    Candidate::Compact,
    Candidate::Checkpoint,
    Candidate::Resume,
    Candidate::Lock,
    Candidate::Unlock,
    Candidate::To,
    Candidate::End,
];

/// Returns a text of the candidate, of at most 14 bytes, by which it is tried. Behind a word that is not reserved there stands more, so
/// that no name is tried by it.
pub fn sample_of(candidate: Candidate) -> &'static [u8]
    ensures sample { result.now ≡ candidates.sample_of candidate }
    ensures short { length result.now ≤ 14 }
{
    match candidate {
        Candidate::Name => b"x",
        Candidate::Integer => b"0",
        Candidate::Column => b".x",
        Candidate::Points => b"..0",
        Candidate::SecondPoint => b".0",
        Candidate::Comma => b",",
        Candidate::Open => b"(",
        Candidate::Close => b")",
        Candidate::Comparison => b"<",
        Candidate::End => b";",
        Candidate::Create => b"CREATE",
        Candidate::Stream => b"STREAM",
        Candidate::Query => b"QUERY",
        Candidate::As => b"AS",
        Candidate::Select => b"SELECT",
        Candidate::Distinct => b"DISTINCT",
        Candidate::From => b"FROM",
        Candidate::Where => b"WHERE",
        Candidate::And => b"AND",
        Candidate::Explain => b"EXPLAIN",
        Candidate::Drop => b"DROP",
        Candidate::In => b"IN",
        Candidate::Shared => b"SHARED",
        Candidate::Compact => b"COMPACT QUERY",
        Candidate::Checkpoint => b"CHECKPOINT",
        Candidate::Resume => b"RESUME",
        Candidate::Lock => b"LOCK 0",
        Candidate::Unlock => b"UNLOCK 0",
        Candidate::To => b"TO x",
    }
}

/// Returns how the candidate is told.
pub fn told_as(candidate: Candidate) -> &'static [u8]
    ensures { result.now ≡ candidates.told_as candidate }
{
    match candidate {
        Candidate::Name => b"a name",
        Candidate::Integer => b"an integer",
        Candidate::Column => b"a point and a column",
        Candidate::Points => b"..",
        Candidate::SecondPoint => b"a second point",
        Candidate::Comma => b"a comma",
        Candidate::Comparison => b"one of < = > <= >= <>",
        Candidate::End => b"the end",
        Candidate::Compact => b"COMPACT",
        Candidate::Lock => b"LOCK",
        Candidate::Unlock => b"UNLOCK",
        Candidate::To => b"TO",
        _ => sample_of(candidate),
    }
}

/// A group of candidates: a name, the column of a stream, the sign of a comparison, an integer as a side of one, what stands behind a side, a point of a
/// domain, IN behind a column of a stream, WHERE, a comma, or CREATE.
#[derive(Clone, Copy, Debug, PartialEq, Eq)]
pub enum Group {
    Name,
    Column,
    Comparison,
    Operand,
    BehindOperand,
    Interval,
    Domain,
    Where,
    Comma,
    Create,
}

// Whether a candidate is of a group.
fn is_in(group: Group, candidate: Candidate) -> bool
    ensures { result ≡ groups.is_in group candidate }
{
    match group {
        Group::Name => matches!(candidate, Candidate::Name),
        Group::Column => matches!(candidate, Candidate::Column),
        Group::Comparison => matches!(candidate, Candidate::Comparison),
        Group::Operand => matches!(candidate, Candidate::Integer),
        Group::BehindOperand => matches!(
            candidate,
            Candidate::Comparison | Candidate::And | Candidate::From
        ),
        Group::Interval => matches!(candidate, Candidate::Points | Candidate::SecondPoint),
        Group::Domain => matches!(candidate, Candidate::In),
        Group::Where => matches!(candidate, Candidate::Where),
        Group::Comma => matches!(candidate, Candidate::Comma),
        Group::Create => matches!(candidate, Candidate::Create),
    }
}

/// Returns whether a candidate of a group may stand there.
pub fn wants(group: Group, next: &[Candidate]) -> bool
    ensures { result ≡ groups.wants group next.now }
{
    next.iter().any(|candidate| is_in(group, *candidate))
}
