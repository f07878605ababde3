//! The pairs of `<>`.
ghost use Rattle.std.specs.Prelude.{◌≡◌, ◌<◌, ◌≤◌, ◌++◌, length};
ghost use Rattle.std.specs.List.{flat_map};
ghost use Rattle.sem_query.specs.Query.{IsWithinLimits};
ghost use Rattle.sem_query.specs.Parts.{pair_of};
ghost use Rattle.plan_split_pairs.specs.Pairs.{is_unlike, unlike_pair, unlike_pairs};

use crate::once::add_each;
use arrayvec::ArrayVec;
use sem_query::{Atom, Element, Op, Pair, Query, is_before};

/// Returns whether an operator is `<>`.
pub fn is_unlike(op: Op) -> bool
    ensures { result ≡ is_unlike op }
{
    match op {
        Op::Lt | Op::Eq | Op::Gt | Op::Le | Op::Ge => false,
        Op::Ne => true,
    }
}

// Adds the pair that two elements make, where they are different and one is a column.
fn push_pair(list: &mut ArrayVec<Pair, 16>, left: Element, right: Element)
    requires { length list.old.items < 16 }
    ensures { list.new.items ≡ list.old.items ++ pair_of left right }
{
    match (left, right) {
        (Element::Attr(a), Element::Attr(b)) => {
            if is_before(a, b) {
                list.push(Pair { left: a, right });
            } else if is_before(b, a) {
                list.push(Pair {
                    left: b,
                    right: left,
                });
            }
        }
        (Element::Attr(a), Element::Const(_)) => list.push(Pair { left: a, right }),
        (Element::Const(_), Element::Attr(b)) => list.push(Pair {
            left: b,
            right: left,
        }),
        (Element::Const(_), Element::Const(_)) => {}
    }
}

// The pairs of the sides of each `<>` among some comparisons, in their order.
fn unlikes(atoms: &[Atom]) -> ArrayVec<Pair, 16>
    requires { length atoms.now ≤ 16 }
    ensures { result.items ≡ flat_map unlike_pair atoms.now }
{
    let mut list = ArrayVec::new();
    'atoms: for atom in atoms {
        if is_unlike(atom.op) {
            push_pair(&mut list, atom.left, atom.right);
        }
    }
    list
}

/// Returns the pairs of the sides of each `<>` of a query, each once, in the order of the comparisons.
pub fn unlike_pairs(q: &Query) -> ArrayVec<Pair, 114>
    ensures value { result.items ≡ unlike_pairs q.now }
    ensures limits { IsWithinLimits q.now }
{
    let mut list = ArrayVec::new();
    match add_each(&mut list, unlikes(q.atoms()).as_slice()) {
        Some(()) => list,
        None => unreachable!(),
    }
}
