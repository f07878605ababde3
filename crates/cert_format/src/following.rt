//! Which line may stand behind which.
ghost use Rattle.std.specs.Prelude.{◌≡◌, ◌<◌, ◌≤◌, ◌↔◌, length, nat_lt, IsTrue};
ghost use Rattle.std.specs.List.{All};
ghost use Rattle.std.specs.Option.{option_copied};
ghost use Rattle.cert_format.specs.Text.{IsWhole};
ghost use Rattle.cert_format.specs.Certificate.{MayFollow, IsNext, count_of, Counts};
ghost use Rattle.cert_format.specs.Certificate as certificates;

use crate::error::CertError;
use crate::line::Line;

/// The most nodes of a certificate.
pub const MOST_NODES: u32 = 262_144;

// Whether a path may stand behind a line, or first.
fn takes_path(before: Option<&Line>) -> bool
    ensures { result ≡ certificates.takes_path (option_copied before.entry) }
{
    matches!(before, Some(Line::Leaf | Line::Path(_)))
}

// Whether a line may stand behind another, or first.
fn may_follow(before: Option<&Line>, line: &Line) -> bool
    ensures { IsTrue result ↔ MayFollow (option_copied before.entry) line.now }
{
    match line {
        Line::Path(_) => takes_path(before),
        _ => true,
    }
}

// Whether there are numbers.
fn has_numbers(numbers: &[u16]) -> bool
    ensures some { result ≡ nat_lt 0 (length numbers.now) }
    ensures small { All (λ n. n < 65536) numbers.now }
{
    !numbers.is_empty()
}

// Whether a line that names constraints names one at least. Its numbers are of 16 bits and no more than it has room for.
fn is_whole(line: &Line) -> bool
    ensures { IsTrue result ↔ IsWhole line.now }
{
    match line {
        Line::Split(pair) => {
            // Read for the proof alone: a value of this type is within its range.
            let _pair = *pair;
            true
        }
        Line::Infeasible(numbers) => has_numbers(numbers.as_slice()),
        Line::Against(comparison) => {
            // Read for the proof alone: a value of this type is within its range.
            let _comparison = *comparison;
            true
        }
        Line::Leaf => true,
        Line::Path(path) => {
            // Read for the proof alone: a value of this type is within its range.
            let _from = path.from;
            let _to = path.to;
            has_numbers(path.numbers.as_slice())
        }
    }
}

// Whether a line may stand behind another, or first, and names a constraint where it must.
fn is_next(before: Option<&Line>, line: &Line) -> bool
    ensures { IsTrue result ↔ IsNext (option_copied before.entry) line.now }
{
    may_follow(before, line) && is_whole(line)
}

// How many nodes a line begins.
fn count(line: &Line) -> u32
    ensures { result ≡ count_of line.now }
{
    match line {
        Line::Path(_) => 0,
        _ => 1,
    }
}

/// Returns the number of nodes with one more line, or why that line may not stand behind the one before it.
pub fn count_with(nodes: u32, before: Option<&Line>, line: &Line) -> Result<u32, CertError>
    requires { nodes ≤ 262144 }
    ensures { Counts result nodes (option_copied before.entry) line.now }
{
    if !is_next(before, line) {
        return Err(CertError::Syntax);
    }
    let more = nodes + count(line);
    if MOST_NODES < more {
        return Err(CertError::Limit);
    }
    Ok(more)
}
