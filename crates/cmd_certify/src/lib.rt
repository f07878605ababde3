//! The commands on certificates.
//!
//! `certify` reads a script of one query, and writes its statements in printed form and a certificate of the query, of the form by which it is
//! judged. `check_script` reads a script with a certificate behind its query, and writes what the certificate shows, of whichever form it is. Both
//! write nothing before all is known.
#![tactic(auto)]

mod answering;
mod certifying;
mod checking;
mod collecting;
pub mod laws;

pub use certifying::certify;
pub use checking::check_script;
