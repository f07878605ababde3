//! The equalities between dims of different streams.
ghost use Rattle.std.specs.Prelude.{◌≡◌, ◌↔◌, ◌+◌, ◌-◌, ◌*◌, ◌<◌, ◌≤◌, IsTrue, Contains, AllPairs, [], length};
ghost use Rattle.sem_query.specs.declared.atom.Attr.{Attr};
ghost use Rattle.sem_query.specs.declared.plan.Link.{Link};
ghost use Rattle.sem_forms.specs.Part.{AreEqualDims};
ghost use Rattle.sem_query.specs.Members.{Has, Ascends};
ghost use Rattle.sem_query.specs.Plan.{link, link_lt};
ghost use Rattle.sem_query.specs.Query.{attr_lt};
ghost use Rattle.plan_forms.specs.Equated.{IsEqual, IsFound, AreClasses, AreAdded, AreEquals, SaysOf, dims_of, with_found};

use arrayvec::ArrayVec;
use plan_whole::ClosedSystem;
use plan_whole_form::WholeStream;
use sem_query::{Attr, Dim, Link};

// Whether two columns are equal in each solution.
fn are_equal(closed: &ClosedSystem, a: Attr, b: Attr) -> bool
    ensures { IsTrue result ↔ IsEqual closed.now a b }
{
    closed.keeps(a, b, 0) && closed.keeps(b, a, 0)
}

// The first of some dims that equals a column, by its name, or none.
fn first_equal(closed: &ClosedSystem, a: Attr, dims: &[Dim]) -> Option<Attr>
    ensures { IsFound closed.now a dims.now result }
{
    'dims: for i in 0..dims.len() {
        if are_equal(closed, a, dims[i].attr) {
            return Some(dims[i].attr);
        }
    }
    None
}

// Adds the equality of a column with one of some dims, where there is one.
fn add_equal(list: &mut ArrayVec<Link, 66>, a: Attr, found: Option<Attr>)
    requires { length list.old.items < 66 }
    ensures { list.new.items ≡ with_found a found list.old.items }
{
    if let Some(b) = found {
        list.push(Link { left: a, right: b });
    }
}

// Adds the equalities of a column with the dims of the streams from a place on.
fn add_equals(
    list: &mut ArrayVec<Link, 66>,
    closed: &ClosedSystem,
    a: Attr,
    streams: &[WholeStream],
    from: usize,
)
    requires place { from ≤ length streams.now }
    requires room { length list.old.items + (length streams.now - from) ≤ 66 }
    requires classes { AreClasses closed.now streams.now }
    requires ascend { Ascends link_lt list.old.items }
    requires behind { (l : Link) → Has list.old.items l → IsTrue (attr_lt l.left a) }
    ensures { AreEquals closed.now streams.now list.old.items a from (length streams.now) list.new.items }
{
    'later: for place in from..streams.len() {
        let found = first_equal(closed, a, streams[place].dims.as_slice());
        add_equal(list, a, found);
    }
}

// Adds the equalities of the dims of a stream with those of later streams.
fn add_stream(
    list: &mut ArrayVec<Link, 66>,
    closed: &ClosedSystem,
    dims: &[Dim],
    streams: &[WholeStream],
    place: usize,
)
    requires place { place < length streams.now }
    requires dims { dims.now ≡ dims_of streams.now place }
    requires eight { length dims.now ≤ 8 }
    requires few { length streams.now ≤ 4 }
    requires room { length list.old.items + 8 * (3 - place) ≤ 66 }
    requires classes { AreClasses closed.now streams.now }
    requires ascend { Ascends link_lt list.old.items }
    requires behind { (l : Link) → Has list.old.items l → l.left.stream < place }
    ensures { AreAdded list.old.items (SaysOf closed.now streams.now place (dims_of streams.now place)) (8 * (3 - place)) list.new.items }
{
    'dims: for k in 0..dims.len() {
        add_equals(list, closed, dims[k].attr, streams, place + 1);
    }
}

/// Returns a link for each two dims of different streams that are equal in each solution, ascending, that of the earlier stream first.
pub fn equal_dims(closed: &ClosedSystem, streams: &[WholeStream]) -> ArrayVec<Link, 66>
    requires few { length streams.now ≤ 4 }
    requires classes { AreClasses closed.now streams.now }
    ensures equal { (a b : Attr) → Contains result.items (link a b) ↔ AreEqualDims closed.now (dims_of streams.now) a b }
    ensures ascending { AllPairs (λ l m. IsTrue (link_lt l m)) result.items }
{
    let mut list = ArrayVec::new();
    'streams: for place in 0..streams.len() {
        add_stream(
            &mut list,
            closed,
            streams[place].dims.as_slice(),
            streams,
            place,
        );
    }
    list
}
