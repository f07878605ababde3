//! Soft comparisons that are false at some signs.
ghost use Rattle.std.specs.Prelude.{◌≡◌};
ghost use Rattle.cert_checker.specs.Rules.{comparison, is_false_under, is_refuted, is_there_refuted, some_refuted};

use plan_constraints::{denies_itself, fails_by};
use sem_query::{Atom, Pair, Sign};

// The comparison with this number, from 1.
fn comparison(atoms: &[Atom], number: u16) -> Option<Atom>
    ensures { result ≡ comparison atoms.now number }
{
    if number == 0 {
        return None;
    }
    atoms.get(usize::from(number) - 1).copied()
}

// Whether a comparison is soft and false under the sign of its pair, where the first pairs have these signs.
fn is_false_under(atom: &Atom, pairs: &[Pair], signs: &[Sign]) -> bool
    ensures { result ≡ is_false_under atom.now pairs.now signs.now }
{
    match pairs {
        [] => false,
        [pair, later @ ..] => match signs {
            [] => false,
            [sign, rest @ ..] => {
                fails_by(atom, *pair, *sign) || is_false_under(atom, later, rest)
            }
        },
    }
}

// Whether it is, or says that an element is not itself.
fn is_refuted(atom: &Atom, pairs: &[Pair], signs: &[Sign]) -> bool
    ensures { result ≡ is_refuted pairs.now signs.now atom.now }
{
    denies_itself(atom) || is_false_under(atom, pairs, signs)
}

/// Returns whether there is a comparison with this number, from 1, and it is refuted where the first pairs have these signs: it is soft and
/// false under the sign of its pair, or says that an element is not itself.
pub fn refutes(atoms: &[Atom], pairs: &[Pair], signs: &[Sign], number: u16) -> bool
    ensures { result ≡ is_there_refuted pairs.now signs.now (comparison atoms.now number) }
{
    match comparison(atoms, number) {
        Some(atom) => is_refuted(&atom, pairs, signs),
        None => false,
    }
}

/// Returns whether some comparison is refuted.
pub fn any_refuted(atoms: &[Atom], pairs: &[Pair], signs: &[Sign]) -> bool
    ensures { result ≡ some_refuted pairs.now signs.now atoms.now }
{
    atoms.iter().any(|t| is_refuted(t, pairs, signs))
}
