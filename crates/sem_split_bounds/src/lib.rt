//! Which queries need many states on rows within their domains, by the parts of their split form.
#![tactic(auto)]

pub mod laws;
