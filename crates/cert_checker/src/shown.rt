//! The form that a certificate shows.
ghost use Rattle.std.specs.Prelude.{◌≡◌};
ghost use Rattle.cert_format.specs.Nodes.{nodes_of};
ghost use Rattle.cert_checker.specs.Shown as forms;

use cert_format::Line;
use sem_query::{Atom, Query};

/// Of which tree a certificate is: that of the parts of a query, or of the whole form or the split form of a compact one.
#[derive(Clone, Copy, Debug, PartialEq, Eq)]
pub enum Shown {
    Plain,
    Whole,
    Split,
}

/// Returns whether a query is compact and no filter: such a query is judged by its form.
pub fn goes_by_form(query: &Query) -> bool
    ensures { result ≡ forms.goes_by_form query.now }
{
    query.compact() && !query.is_filter()
}

// The form that the node of a line shows: a split, or a comparison that closes the tree, shows the split form. A path begins no node.
fn form_at(line: &Line) -> Option<Shown>
    ensures { result ≡ forms.form_at line.now }
{
    match line {
        Line::Split(_) => Some(Shown::Split),
        Line::Against(_) => Some(Shown::Split),
        Line::Infeasible(_) => Some(Shown::Whole),
        Line::Leaf => Some(Shown::Whole),
        Line::Path(_) => None,
    }
}

// The form that the first node of some lines shows.
fn first_shows(lines: &[Line]) -> Shown
    ensures { result ≡ forms.first_shows (nodes_of lines.now) }
{
    for line in lines {
        if let Some(shown) = form_at(line) {
            return shown;
        }
    }
    Shown::Whole
}

/// Returns the form that a certificate of the query shows, by its lines.
pub fn shown_by(query: &Query, lines: &[Line]) -> Shown
    ensures { result ≡ forms.shown_by query.now (nodes_of lines.now) }
{
    if goes_by_form(query) {
        first_shows(lines)
    } else {
        Shown::Plain
    }
}

/// Returns the comparisons that may close a branch of a tree of that form.
pub fn atoms_of(query: &Query, shown: Shown) -> &[Atom]
    ensures { result.now ≡ (forms.branching_of shown query.now).atoms }
{
    match shown {
        Shown::Plain => query.atoms(),
        Shown::Whole => &[],
        Shown::Split => query.atoms(),
    }
}
