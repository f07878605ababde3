//! Pairs between streams.
ghost use Rattle.std.specs.Prelude.{◌↔◌, IsTrue};
ghost use Rattle.fam_fooling_sets.specs.Laws.{IsLocal};
ghost use Rattle.fam_fooling_sets.specs.Lowered.{IsAcross};

use sem_query::{Element, Pair};

// Whether both sides are of one stream, or one is a constant.
fn is_local(pair: Pair) -> bool
    ensures { IsTrue result ↔ IsLocal pair }
{
    match pair.right {
        Element::Attr(right) => pair.left.stream == right.stream,
        Element::Const(_) => true,
    }
}

/// Returns the first pair that lies between streams, or none where none does.
pub fn pair_across(pairs: &[Pair]) -> Option<Pair>
    ensures { IsAcross pairs.now result }
{
    for i in 0..pairs.len() {
        if !is_local(pairs[i]) {
            return Some(pairs[i]);
        }
    }
    None
}
