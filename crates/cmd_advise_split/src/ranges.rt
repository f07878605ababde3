//! The line of the ranges of a query.
ghost use Rattle.std.specs.Prelude.{◌≡◌};
ghost use Rattle.io_streams.specs.Sink.{Writes};
ghost use Rattle.cmd_advise_split.specs.Text as text;

use adv_key_ranges::{Least, Ranges};
use adv_templates::{Filling, Written, write_filled};
use io_streams::Sink;
use sql_replies::which_text;

/// The line. Its holes are for the number above its limit, the two ends, what stands before the number of ranges, and that number.
pub const RANGES: &[u8] =
    b"    refused limit _; ranges of _.._ with which it is accepted in each: __\n";

// What stands before the number of a line.
fn least_lead(least: Least) -> &'static [u8]
    ensures { result.now ≡ text.least_lead least }
{
    match least {
        Least::Number(_) => b"",
        Least::NoneUpTo(_) => b"none up to ",
    }
}

// The number of a line.
fn least_number(least: Least) -> u64
    ensures { result ≡ text.least_number least }
{
    match least {
        Least::Number(ranges) => ranges,
        Least::NoneUpTo(most) => most,
    }
}

// The line of these ranges.
fn write_some<O: Sink>(out: &mut O, ranges: &Ranges) -> Written
    ensures { Writes result (O.seen out.old) (O.seen out.new) (text.some_ranges_text ranges.now) }
{
    let fillings = [
        Filling::Fixed(which_text(ranges.which)),
        Filling::Integer(ranges.ends.lo),
        Filling::Integer(ranges.ends.hi),
        Filling::Fixed(least_lead(ranges.least)),
        Filling::Number(least_number(ranges.least)),
    ];
    write_filled(out, RANGES, &fillings)
}

/// Writes what is said of the ranges of a query, as `    refused limit cells; ranges of 1..1000000 with which it is accepted in each: 16`, and nothing where
/// there is nothing to say.
pub fn write_ranges<O: Sink>(out: &mut O, ranges: &Option<Ranges>) -> Written
    ensures { Writes result (O.seen out.old) (O.seen out.new) (text.ranges_text ranges.now) }
{
    match ranges {
        Some(some) => write_some(out, some),
        None => Ok(()),
    }
}
