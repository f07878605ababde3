//! Lines that stand behind the others.
ghost use Rattle.cert_format.specs.Certificate.{IsNext, last_of};
ghost use Rattle.cert_maker.specs.Tree.{AddsNext};

use crate::error::MakeError;
use cert_format::{CertError, Certificate, Line};

/// Adds a line that may stand behind the others.
pub fn add(line: Line, certificate: &mut Certificate) -> Result<(), MakeError>
    requires { IsNext (last_of certificate.old) line }
    ensures { AddsNext result line certificate.old certificate.new }
{
    match certificate.add(line) {
        Ok(()) => Ok(()),
        Err(CertError::Limit) => Err(MakeError::Limit),
        Err(CertError::Memory) => Err(MakeError::Memory),
        Err(CertError::Syntax) => unreachable!(),
    }
}
