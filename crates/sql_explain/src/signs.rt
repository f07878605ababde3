//! The pairs of a query with the signs of a part.
ghost use Rattle.std.specs.Prelude.{◌≡◌, ◌⊎◌, ◌<◌, [], length};
ghost use Rattle.std.specs.List.{All};
ghost use Rattle.io_streams.specs.Sink.{Writes};
ghost use Rattle.sem_query.specs.Parts.{pairs};
ghost use Rattle.sql_parser.specs.Resolution.{HasNamed};
ghost use Rattle.sql_explain.specs.Named.{HasPair};
ghost use Rattle.sql_explain.specs.Text.{sign_line, signs_text};

use crate::lines::{sign_text, write_columns_compared, write_text_compared};
use io_streams::{Sink, WriteFault};
use itoa::Buffer;
use sem_query::{Element, Pair, Query, Sign};
use sql_catalog::Catalog;
use sql_printer::column_named;

// `sign S.a > 10`
fn write_sign<O: Sink>(
    out: &mut O,
    pair: Pair,
    sign: Sign,
    from: &[u8],
    catalog: &Catalog,
) -> Result<(), WriteFault>
    requires from { All (λ n. n < length catalog.now) from.now }
    requires pair { HasPair catalog.now from.now pair }
    ensures { Writes result (O.seen out.old) (O.seen out.new) (sign_line catalog.now from.now pair sign) }
{
    let left = column_named(pair.left, from, catalog);
    let sign = sign_text(sign);
    match pair.right {
        Element::Attr(attr) => {
            let right = column_named(attr, from, catalog);
            write_columns_compared(out, b"sign ", &left, sign, &right)
        }
        Element::Const(integer) => {
            let mut buffer = Buffer::new();
            let digits = buffer.format(integer).as_bytes();
            write_text_compared(out, b"sign ", &left, sign, digits)
        }
    }
}

// `sign S.a > 10` for each pair, with its sign.
fn write_pairs<O: Sink>(
    out: &mut O,
    pairs: &[Pair],
    signs: &[Sign],
    from: &[u8],
    catalog: &Catalog,
) -> Result<(), WriteFault>
    requires lengths { length pairs.now ≡ length signs.now }
    requires from { All (λ n. n < length catalog.now) from.now }
    requires pairs { All (HasPair catalog.now from.now) pairs.now }
    ensures { Writes result (O.seen out.old) (O.seen out.new) (signs_text catalog.now from.now pairs.now signs.now) }
{
    for (i, pair) in pairs.iter().enumerate() {
        write_sign(out, *pair, signs[i], from, catalog)?;
    }
    Ok(())
}

/// Writes `sign S.a > 10` for each pair of a query, with its sign in a part; nothing where the part has no signs.
pub fn write_signs<O: Sink>(
    out: &mut O,
    query: &Query,
    signs: &[Sign],
    catalog: &Catalog,
) -> Result<(), WriteFault>
    requires named { HasNamed catalog.now query.now }
    requires lengths { (length (pairs query.now) ≡ length signs.now) ⊎ (signs.now ≡ []) }
    ensures { Writes result (O.seen out.old) (O.seen out.new) (signs_text catalog.now query.now.from (pairs query.now) signs.now) }
{
    if signs.is_empty() {
        return Ok(());
    }
    let pairs = query.pairs();
    write_pairs(out, pairs.as_slice(), signs, query.from(), catalog)
}
