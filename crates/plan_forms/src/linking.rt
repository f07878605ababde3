//! The links of the form by their operators: those that are `<`, and those that are neither `<` nor an equality.
ghost use Rattle.std.specs.Prelude.{◌≡◌, ◌≤◌, ◌<◌, ◌+◌, ◌++◌, [], ◌∷◌, map, filter, length};
ghost use Rattle.sem_query.specs.declared.atom.Op.{Op};
ghost use Rattle.plan_whole.specs.Columns.{atom_of};
ghost use Rattle.sem_forms.specs.Part.{read_as, soft_as, has_op, is_soft};

use arrayvec::ArrayVec;
use plan_whole::ColumnLink;
use sem_query::{Link, Op, SoftLink};

fn is_less(link: ColumnLink) -> bool
    ensures { result ≡ has_op Op.Lt (atom_of link) }
{
    match link.op {
        Op::Lt => true,
        Op::Eq | Op::Gt | Op::Le | Op::Ge | Op::Ne => false,
    }
}

// Whether a link is neither an equality nor `<`.
fn is_soft(link: ColumnLink) -> bool
    ensures { result ≡ is_soft (atom_of link) }
{
    match link.op {
        Op::Lt | Op::Eq => false,
        Op::Gt | Op::Le | Op::Ge | Op::Ne => true,
    }
}

// Adds a link, where it is `<`.
fn add_less(list: &mut ArrayVec<Link, 66>, link: ColumnLink)
    requires { length list.old.items < 66 }
    ensures links { map (read_as Op.Lt) list.new.items ≡ map (read_as Op.Lt) list.old.items ++ filter (has_op Op.Lt) (atom_of link ∷ []) }
    ensures few { length list.new.items ≤ length list.old.items + 1 }
{
    if is_less(link) {
        list.push(Link {
            left: link.left,
            right: link.right,
        });
    }
}

// Adds a link, where it is neither `<` nor an equality.
fn add_soft(list: &mut ArrayVec<SoftLink, 16>, link: ColumnLink)
    requires { length list.old.items + length (filter is_soft (atom_of link ∷ [])) ≤ 16 }
    ensures { map soft_as list.new.items ≡ map soft_as list.old.items ++ filter is_soft (atom_of link ∷ []) }
{
    if is_soft(link) {
        list.push(SoftLink {
            left: link.left,
            op: link.op,
            right: link.right,
        });
    }
}

/// Returns the links that are `<`, in their order.
pub fn inequalities(links: &[ColumnLink]) -> ArrayVec<Link, 66>
    requires { length links.now ≤ 24 }
    ensures { map (read_as Op.Lt) result.items ≡ filter (has_op Op.Lt) (map atom_of links.now) }
{
    let mut list = ArrayVec::new();
    'links: for i in 0..links.len() {
        add_less(&mut list, links[i]);
    }
    list
}

/// Returns the links that are neither `<` nor an equality, in their order.
pub fn soft_links(links: &[ColumnLink]) -> ArrayVec<SoftLink, 16>
    requires { length (filter is_soft (map atom_of links.now)) ≤ 16 }
    ensures { map soft_as result.items ≡ filter is_soft (map atom_of links.now) }
{
    let mut list = ArrayVec::new();
    'links: for i in 0..links.len() {
        add_soft(&mut list, links[i]);
    }
    list
}
