//! Why a line is not added to a certificate.
use thiserror::Error;

/// Why a line is not added. The certificate is then as it was.
#[derive(Clone, Copy, Debug, PartialEq, Eq, Error)]
pub enum CertError {
    /// The text is no line of a certificate, the line names no constraint where it must, or it is a path that stands behind
    /// neither a leaf nor a path.
    #[error("this is no line of a certificate, or a path without a leaf")]
    Syntax,
    /// It begins another node than the 262,144 that a certificate may have.
    #[error("a certificate has at most 262144 nodes")]
    Limit,
    /// There is no memory for it.
    #[error("out of memory")]
    Memory,
}
