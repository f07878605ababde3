//! A code for each box, by which the same one is looked up.
ghost use Rattle.std.specs.Prelude.{◌≡◌, ◌+◌, ◌*◌, ◌%◌, ◌^◌};
ghost use Rattle.std.specs.List.{flat_map};
ghost use Rattle.sem_query.specs.Sharing.{box_at};
ghost use Rattle.plan_layout.specs.Codes.{code_after, number_of, sign_number, sign_numbers, dim_numbers, kind_numbers, code_of};

use crate::alike::kind_at;
use sem_query::{Dim, Kind, Pair, PartPlan, Query, Sign, dims_at, is_within};

// The code with one number more.
fn with_number(code: u64, number: u64) -> u64
    ensures { result ≡ (code * 31 + number) % 2 ^ 64 }
{
    code.wrapping_mul(31).wrapping_add(number)
}

// The number of a sign.
fn number_of(sign: Sign) -> u64
    ensures { result ≡ number_of sign }
{
    match sign {
        Sign::Lt => 0,
        Sign::Eq => 1,
        Sign::Gt => 2,
    }
}

// The number of the sign of a pair, 0 where the pair is not of the stream at a place.
fn sign_number(place: usize, pair: Pair, sign: Sign) -> u64
    ensures { result ≡ sign_number place pair sign }
{
    if is_within(place, pair) {
        number_of(sign)
    } else {
        0
    }
}

// The code with the signs of pairs.
fn with_signs(code: u64, place: usize, pairs: &[Pair], signs: &[Sign]) -> u64
    ensures { result ≡ code_after code (sign_numbers place pairs.now signs.now) }
{
    let mut code = code;
    'signs: for i in 0..pairs.len().min(signs.len()) {
        code = with_number(code, sign_number(place, pairs[i], signs[i]));
    }
    code
}

// The code with a dim.
fn with_dim(code: u64, dim: Dim) -> u64
    ensures { result ≡ code_after code (dim_numbers dim) }
{
    let code = with_number(code, u64::from(dim.attr.column));
    let code = with_number(code, dim.lo.unsigned_abs());
    with_number(code, dim.hi.unsigned_abs())
}

// The code with dims.
fn with_dims(code: u64, dims: &[Dim]) -> u64
    ensures { result ≡ code_after code (flat_map dim_numbers dims.now) }
{
    let mut code = code;
    'dims: for dim in dims {
        code = with_dim(code, *dim);
    }
    code
}

// The code with a kind of cells.
fn with_kind(code: u64, kind: Kind) -> u64
    ensures { result ≡ code_after code (kind_numbers kind) }
{
    match kind {
        Kind::Count => with_number(code, 0),
        Kind::Present => with_number(code, 1),
        Kind::Least(attr) => with_number(with_number(code, 2), u64::from(attr.column)),
        Kind::Greatest(attr) => with_number(with_number(code, 3), u64::from(attr.column)),
    }
}

/// Returns the code of the box of a part at a place of FROM: boxes that are the same have the same code.
pub fn code_of(q: &Query, part: &PartPlan, place: usize) -> u64
    ensures { result ≡ code_of q.now (box_at part.now place) }
{
    let code = with_signs(
        place as u64,
        place,
        q.pairs().as_slice(),
        part.signs.as_slice(),
    );
    let code = with_dims(code, dims_at(part, place));
    with_kind(code, kind_at(part, place))
}
