//! Columns, elements and the comparisons of two elements.
ghost use Rattle.std.specs.Prelude.{◌≡◌, length, map, Contains};
ghost use Rattle.sem_query.specs.Query.{attr_eq, attr_lt, is_soft};
ghost use Rattle.sem_query.specs.Parts.{element_eq};
ghost use Rattle.sem_query.specs.Assignment.{Assignment, value, compares, meets, IsAmong, AreAmong};

/// A column, by the place of its stream in FROM and its own place in the stream, each from 0.
#[derive(Clone, Copy, Debug, Default, PartialEq, Eq)]
pub struct Attr {
    pub stream: u8,
    pub column: u8,
}

/// The integers that a column may have: those from the least to the greatest.
#[derive(Clone, Copy, Debug, Default, PartialEq, Eq)]
pub struct Domain {
    pub attr: Attr,
    pub lo: i64,
    pub hi: i64,
}

/// A side of a comparison: a column or an integer.
#[derive(Clone, Copy, Debug, PartialEq, Eq)]
pub enum Element {
    Attr(Attr),
    Const(i64),
}

impl Default for Element {
    ghost use Rattle.std.specs.Prelude.{◌≡◌, pos};
    ghost use Rattle.sem_query.specs.declared.atom.Element.TheVariants as element;

    ghost is_default = { λ e. e ≡ element.Const (pos 0) };

    fn default() -> Element {
        Element::Const(0)
    }
}

/// How the sides of a comparison stand to each other.
#[derive(Clone, Copy, Debug, Default, PartialEq, Eq)]
pub enum Op {
    #[default]
    Lt,
    Eq,
    Gt,
    Le,
    Ge,
    Ne,
}

impl Op {
    /// Returns whether two integers stand to each other in this way.
    pub fn compares(self, left: i64, right: i64) -> bool
        ensures { result ≡ compares self left right }
    {
        match self {
            Op::Lt => left < right,
            Op::Eq => left == right,
            Op::Gt => left > right,
            Op::Le => left <= right,
            Op::Ge => left >= right,
            Op::Ne => left != right,
        }
    }

    /// Returns whether it leaves open which of two signs the sides have.
    pub fn is_soft(self) -> bool
        ensures { result ≡ is_soft self }
    {
        match self {
            Op::Lt | Op::Eq | Op::Gt => false,
            Op::Le | Op::Ge | Op::Ne => true,
        }
    }
}

/// A comparison of two elements, of which at least one is a column.
#[derive(Clone, Copy, Debug, Default, PartialEq, Eq)]
pub struct Atom {
    pub left: Element,
    pub op: Op,
    pub right: Element,
}

impl Atom {
    /// Returns whether the comparison holds, where the values give the columns theirs, in order.
    pub fn holds(&self, attrs: &[Attr], values: &[i64]) -> bool
        requires sides { AreAmong attrs.now self.now }
        requires values { length attrs.now ≡ length values.now }
        ensures { (v : Assignment) → map v attrs.now ≡ values.now → result ≡ meets v self.now }
    {
        let left = value_among(self.left, attrs, values);
        let right = value_among(self.right, attrs, values);
        self.op.compares(left, right)
    }
}

/// Returns whether two columns are the same.
pub fn is_same(a: Attr, b: Attr) -> bool
    ensures { result ≡ attr_eq a b }
{
    a.stream == b.stream && a.column == b.column
}

/// Returns whether a column stands before another: by FROM order, then column order.
pub fn is_before(a: Attr, b: Attr) -> bool
    ensures { result ≡ attr_lt a b }
{
    a.stream < b.stream || (a.stream == b.stream && a.column < b.column)
}

/// Returns whether two elements are the same.
pub fn is_same_element(a: Element, b: Element) -> bool
    ensures { result ≡ element_eq a b }
{
    match (a, b) {
        (Element::Attr(a), Element::Attr(b)) => is_same(a, b),
        (Element::Const(j), Element::Const(k)) => j == k,
        (Element::Attr(_), Element::Const(_)) | (Element::Const(_), Element::Attr(_)) => false,
    }
}

// The value of a column that is among some, where the values give these theirs.
fn column_among(attr: Attr, attrs: &[Attr], values: &[i64]) -> i64
    requires among { Contains attrs.now attr }
    requires values { length attrs.now ≡ length values.now }
    ensures { (v : Assignment) → map v attrs.now ≡ values.now → result ≡ v attr }
{
    for (i, other) in attrs.iter().enumerate() {
        if is_same(*other, attr) {
            return values[i];
        }
    }
    0
}

// The value of an element, where the values give the columns theirs.
fn value_among(element: Element, attrs: &[Attr], values: &[i64]) -> i64
    requires among { IsAmong attrs.now element }
    requires values { length attrs.now ≡ length values.now }
    ensures { (v : Assignment) → map v attrs.now ≡ values.now → result ≡ value element v }
{
    match element {
        Element::Attr(attr) => column_among(attr, attrs, values),
        Element::Const(integer) => integer,
    }
}
