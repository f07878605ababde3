//! Which columns a walk knows, and by which of them a link fixes another.
ghost use Rattle.std.specs.Prelude.{◌≡◌, ◌<◌};
ghost use Rattle.sem_query.specs.Probing.{is_known};
ghost use Rattle.exec_synopsis.specs.Narrowing.{binding_column};

use sem_query::{Attr, Link, is_same};

/// Returns whether a walk that has chosen at so many places knows the column.
pub fn is_known(arriving: u8, place: usize, a: Attr) -> bool
    ensures { result ≡ is_known arriving place a }
{
    a.stream == arriving || usize::from(a.stream) < place
}

/// Returns a known column that a link says is equal.
pub fn binding_column(arriving: u8, place: usize, a: Attr, links: &[Link]) -> Option<Attr>
    ensures { result ≡ binding_column arriving place a links.now }
{
    'links: for link in links {
        if is_same(link.left, a) && is_known(arriving, place, link.right) {
            return Some(link.right);
        }
        if is_same(link.right, a) && is_known(arriving, place, link.left) {
            return Some(link.left);
        }
    }
    None
}
