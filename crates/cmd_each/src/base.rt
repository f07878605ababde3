//! What stood below a sink when it was made.
ghost use Rattle.std.specs.Prelude.{ℕ, List, Option};

use std::marker::Brand;

/// What stood below a sink when it was made, and by which reference that was passed on. It exists for proofs alone.
pub trait Base {
    ghost bytes: { Option (List ℕ) };

    ghost low: { ℕ };
}

impl Base for Brand {
    ghost use Rattle.std.specs.declared.option.Option.TheVariants.{None};

    ghost bytes = { None };

    ghost low = { 0 };
}
