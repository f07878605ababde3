//! Making a certificate.
ghost use Rattle.std.specs.Prelude.{◌≡◌, ◌≤◌, ◌⊎◌, IsTrue, length};
ghost use Rattle.cert_checker.specs.Shown.{branching_of};
ghost use Rattle.cert_maker.specs.Made.{Makes};

use crate::branches::Branches;
use crate::error::MakeError;
use crate::tree::from_root;
use cert_checker::Shown;
use cert_format::Certificate;
use plan_split_pairs::form_pairs;
use sem_query::{Pair, Query};
use std::alloc::Global;

// A certificate that shows a form, in which these pairs get signs.
fn with_pairs(
    alloc: Global,
    q: &Query,
    shown: Shown,
    pairs: &[Pair],
) -> Result<Certificate, MakeError>
    requires pairs { pairs.now ≡ (branching_of shown q.now).pairs }
    requires few { length pairs.now ≤ 114 }
    ensures { Makes shown q.now result }
{
    let branches = Branches {
        query: q,
        shown,
        pairs,
    };
    let mut certificate = Certificate::new(alloc);
    let mut parts = 0;
    from_root(&branches, &mut certificate, &mut parts)?;
    Ok(certificate)
}

/// Returns a certificate of the query that shows this form, which is the plain one unless the query is compact. `Limit` exactly where the
/// form has more than 114 pairs or 4,096 parts, or its certificate more than 262,144 nodes; `Memory` where there is none left.
pub fn make(alloc: Global, q: &Query, shown: Shown) -> Result<Certificate, MakeError>
    requires { IsTrue q.now.compact ⊎ (shown ≡ Shown.Plain) }
    ensures { Makes shown q.now result }
{
    match shown {
        Shown::Plain => with_pairs(alloc, q, Shown::Plain, q.pairs().as_slice()),
        Shown::Whole => with_pairs(alloc, q, Shown::Whole, &[]),
        Shown::Split => match form_pairs(q) {
            Some(pairs) => with_pairs(alloc, q, Shown::Split, pairs.as_slice()),
            None => Err(MakeError::Limit),
        },
    }
}
