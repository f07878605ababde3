//! The family of a query over the streams of a catalog.
ghost use Rattle.std.specs.Prelude.{IsFalse, IfOk, IfSome};
ghost use Rattle.sem_query.specs.Query.{is_filter};
ghost use Rattle.sem_query.specs.Parts.{AreParts, sign_lists};
ghost use Rattle.sem_query.specs.Verdict.{IsDecision};
ghost use Rattle.sql_parser.specs.Resolution.{HasNamed};
ghost use Rattle.fam_text.specs.Answer.{IsFamilyAnswer, IsFoundOver};

use crate::blank::blanks;
use fam_fooling_sets::{Family, FoundFamily, LowerError, family_over, moved_family};
use sem_query::{Attr, Condition, Decision, Part, Query};
use sql_catalog::Catalog;
use std::alloc::{AllocError, Global};

/// Returns a family of n rows for the condition that the decision names, at its column. Its rows are rows of the catalog's streams, in the domains of
/// their columns; a column that does not matter has the least value of its domain, or 0. `Bounded` where the query breaks no condition; `C2`
/// where it breaks the second and one of its pairs lies between streams; `C3` where it breaks the third, and is compact, a column has a domain, or one
/// of its pairs lies between streams; `Memory` where there is none.
pub fn family(
    alloc: Global,
    q: &Query,
    parts: &[Part],
    decision: &Decision,
    catalog: &Catalog,
    n: u16,
) -> Result<Family, LowerError>
    requires named { HasNamed catalog.now q.now }
    requires parts { AreParts q.now (sign_lists parts.now) }
    requires decision { IsDecision q.now decision.now }
    ensures { IsFamilyAnswer catalog.now q.now decision.now n result }
{
    // No effect at run time. The proof reads from this call that the domains have ends.
    let _streams = catalog.len();
    let blanks = blanks(catalog, q.from());
    family_over(alloc, q, parts, *decision, blanks.as_slice(), n)
}

/// Returns a family of n rows for a condition that is broken at a column, or none where none is found: at that column, or for an unbounded equality or
/// inequality also at a column of another stream. Its rows are rows of the catalog's streams as those of `family` are. An error says that memory was not found.
pub fn found_family(
    alloc: Global,
    q: &Query,
    condition: Condition,
    attr: Attr,
    catalog: &Catalog,
    n: u16,
) -> Result<Option<FoundFamily>, AllocError>
    requires named { HasNamed catalog.now q.now }
    requires counted { IsFalse (is_filter q.now) }
    ensures { IfOk result (λ found. IfSome found (λ f. IsFoundOver catalog.now q.now condition f.attr n f.family)) }
{
    // No effect at run time. The proof reads from this call that the domains have ends.
    let _streams = catalog.len();
    let blanks = blanks(catalog, q.from());
    match moved_family(alloc, q, condition, attr, blanks.as_slice(), n)? {
        Some(found) => Ok(Some(found)),
        None => Ok(None),
    }
}
