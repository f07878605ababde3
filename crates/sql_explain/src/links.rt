//! The links of a part.
ghost use Rattle.std.specs.Prelude.{◌≡◌, ◌<◌, length};
ghost use Rattle.std.specs.List.{All, flat_map};
ghost use Rattle.io_streams.specs.Sink.{Writes};
ghost use Rattle.sql_explain.specs.Named.{HasLink, HasSoftLink};
ghost use Rattle.sql_explain.specs.Text.{link_line, soft_line, unequal_text, links_text};

use crate::lines::{sign_text, soft_word, write_columns_compared};
use io_streams::{Sink, WriteFault};
use sem_query::{Link, PartPlan, Sign, SoftLink};
use sql_catalog::Catalog;
use sql_printer::{column_named, op_text};

// `equal S.a = T.c`
fn write_link<O: Sink>(
    out: &mut O,
    word: &[u8],
    sign: Sign,
    link: Link,
    from: &[u8],
    catalog: &Catalog,
) -> Result<(), WriteFault>
    requires from { All (λ n. n < length catalog.now) from.now }
    requires link { HasLink catalog.now from.now link }
    ensures { Writes result (O.seen out.old) (O.seen out.new) (link_line catalog.now from.now word.now sign link) }
{
    let left = column_named(link.left, from, catalog);
    let right = column_named(link.right, from, catalog);
    let sign = sign_text(sign);
    write_columns_compared(out, word, &left, sign, &right)
}

// `equal S.a = T.c` for each link, with the word and the sign that are given.
fn write_each<O: Sink>(
    out: &mut O,
    word: &[u8],
    sign: Sign,
    links: &[Link],
    from: &[u8],
    catalog: &Catalog,
) -> Result<(), WriteFault>
    requires from { All (λ n. n < length catalog.now) from.now }
    requires links { All (HasLink catalog.now from.now) links.now }
    ensures { Writes result (O.seen out.old) (O.seen out.new) (flat_map (link_line catalog.now from.now word.now sign) links.now) }
{
    for link in links {
        write_link(out, word, sign, *link, from, catalog)?;
    }
    Ok(())
}

// `most S.a <= T.c`
fn write_soft_link<O: Sink>(
    out: &mut O,
    link: SoftLink,
    from: &[u8],
    catalog: &Catalog,
) -> Result<(), WriteFault>
    requires from { All (λ n. n < length catalog.now) from.now }
    requires link { HasSoftLink catalog.now from.now link }
    ensures { Writes result (O.seen out.old) (O.seen out.new) (soft_line catalog.now from.now link) }
{
    let left = column_named(link.left, from, catalog);
    let right = column_named(link.right, from, catalog);
    write_columns_compared(out, soft_word(link.op), &left, op_text(link.op), &right)
}

// `most S.a <= T.c` for each link that is neither an equality nor `<`.
fn write_soft<O: Sink>(
    out: &mut O,
    links: &[SoftLink],
    from: &[u8],
    catalog: &Catalog,
) -> Result<(), WriteFault>
    requires from { All (λ n. n < length catalog.now) from.now }
    requires links { All (HasSoftLink catalog.now from.now) links.now }
    ensures { Writes result (O.seen out.old) (O.seen out.new) (flat_map (soft_line catalog.now from.now) links.now) }
{
    for link in links {
        write_soft_link(out, *link, from, catalog)?;
    }
    Ok(())
}

// `less S.b < T.c` for each inequality, and then the links that are neither that nor an equality.
#[tactic(auto, using(crate::proofs::Writers::writes_after))]
fn write_unequal<O: Sink>(
    out: &mut O,
    part: &PartPlan,
    from: &[u8],
    catalog: &Catalog,
) -> Result<(), WriteFault>
    requires from { All (λ n. n < length catalog.now) from.now }
    requires less { All (HasLink catalog.now from.now) part.now.less.items }
    requires soft { All (HasSoftLink catalog.now from.now) part.now.soft.items }
    ensures { Writes result (O.seen out.old) (O.seen out.new) (unequal_text catalog.now from.now part.now) }
{
    let less = part.less.as_slice();
    let soft = part.soft.as_slice();
    write_each(out, b"less ", Sign::Lt, less, from, catalog)?;
    write_soft(out, soft, from, catalog)
}

/// Writes the links of a part: `equal S.a = T.c` for each equality, then `less S.b < T.c` for each inequality, and then
/// `most S.a <= T.c` or `unlike S.b <> T.d` for each of the others.
#[tactic(auto, using(crate::proofs::Writers::writes_after))]
pub fn write_links<O: Sink>(
    out: &mut O,
    part: &PartPlan,
    from: &[u8],
    catalog: &Catalog,
) -> Result<(), WriteFault>
    requires from { All (λ n. n < length catalog.now) from.now }
    requires equal { All (HasLink catalog.now from.now) part.now.equal.items }
    requires less { All (HasLink catalog.now from.now) part.now.less.items }
    requires soft { All (HasSoftLink catalog.now from.now) part.now.soft.items }
    ensures { Writes result (O.seen out.old) (O.seen out.new) (links_text catalog.now from.now part.now) }
{
    let equal = part.equal.as_slice();
    write_each(out, b"equal ", Sign::Eq, equal, from, catalog)?;
    write_unequal(out, part, from, catalog)
}
