//! A leaf with its paths.
ghost use Rattle.std.specs.Prelude.{◌≡◌, ◌≢◌, ◌≤◌, true, length};
ghost use Rattle.plan_constraints.specs.Solutions.{IsSatisfiable};
ghost use Rattle.cert_format.specs.declared.line.Line.TheVariants as line;
ghost use Rattle.cert_format.specs.Certificate.{last_of, takes_path};
ghost use Rattle.cert_maker.specs.Leaf.{AddsPath, AddsPaths, AddsLeaf};

use crate::adding::add;
use crate::error::MakeError;
use arrayvec::ArrayVec;
use cert_format::{Certificate, Line, Path};
use plan_closure::Bounds;

// The most parts of a query that has a certificate.
const MOST_PARTS: u32 = 4096;

// The line of a path. It has at most as many numbers as there is room for.
fn path_line(from: u8, to: u8, numbers: ArrayVec<u16, 12>) -> Line
    ensures is { result ≡ line.Path record { from = from; to = to; numbers = numbers } }
    ensures few { length numbers.items ≤ 12 }
{
    // Read for the proof alone: the call tells how many there are at most.
    let _numbers = numbers.as_slice();
    Line::Path(Path {
        from: u16::from(from),
        to: u16::from(to),
        numbers,
    })
}

// Adds the least path from one node to another, where there is one.
fn add_path(
    bounds: &Bounds,
    from: u8,
    to: u8,
    certificate: &mut Certificate,
) -> Result<(), MakeError>
    requires from { from ≤ bounds.now.attrs }
    requires to { to ≤ bounds.now.attrs }
    requires differ { from ≢ to }
    requires satisfiable { IsSatisfiable bounds.now.constraints }
    requires few { length bounds.now.constraints ≤ 300 }
    requires takes { takes_path (last_of certificate.old) ≡ true }
    ensures { AddsPath result bounds.now.constraints from to certificate.old certificate.new }
{
    match bounds.path(from, to) {
        Some(numbers) => add(path_line(from, to, numbers), certificate),
        None => Ok(()),
    }
}

// Adds the least paths between the nodes 0 to `attrs`, in order, behind a leaf.
fn add_paths(bounds: &Bounds, attrs: u8, certificate: &mut Certificate) -> Result<(), MakeError>
    requires attrs { attrs ≡ bounds.now.attrs }
    requires few_attrs { attrs ≤ 12 }
    requires satisfiable { IsSatisfiable bounds.now.constraints }
    requires few { length bounds.now.constraints ≤ 300 }
    requires takes { takes_path (last_of certificate.old) ≡ true }
    ensures { AddsPaths result attrs bounds.now.constraints certificate.old certificate.new }
{
    for from in 0..attrs + 1 {
        for to in 0..attrs + 1 {
            if from != to {
                add_path(bounds, from, to, certificate)?;
            }
        }
    }
    Ok(())
}

/// Adds a part with the least paths between the nodes 0 to `attrs`. `parts` counts the parts.
pub fn add_leaf(
    bounds: &Bounds,
    attrs: u8,
    certificate: &mut Certificate,
    parts: &mut u32,
) -> Result<(), MakeError>
    requires attrs { attrs ≡ bounds.now.attrs }
    requires few_attrs { attrs ≤ 12 }
    requires satisfiable { IsSatisfiable bounds.now.constraints }
    requires few { length bounds.now.constraints ≤ 300 }
    requires few_parts { parts.old ≤ 4096 }
    ensures { AddsLeaf result attrs bounds.now.constraints certificate.old certificate.new parts.old parts.new }
{
    if *parts == MOST_PARTS {
        return Err(MakeError::Limit);
    }
    *parts += 1;
    add(Line::Leaf, certificate)?;
    add_paths(bounds, attrs, certificate)
}
