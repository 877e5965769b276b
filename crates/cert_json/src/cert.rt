//! Certificates, which hold the four forms of a function, and why bytes are none.

use away_values::NoMemory;
pub use call_forms::Forms as Cert;
use std::alloc::AllocError;
use thiserror::Error;

/// The fields of a certificate, in the order in which they are judged.
#[derive(Clone, Copy, Debug, PartialEq, Eq)]
pub enum CertField {
    GotoEntry,
    GotoEnd,
    GotoNodes,
    GotoBlocks,
    SsaNames,
    SsaBlocks,
    AnfBlocks,
    Labels,
    Columns,
    Places,
}

/// Why bytes are no certificate: they are no JSON, or the first field that hasn't its shape.
#[derive(Clone, Copy, Debug, PartialEq, Eq, Error)]
pub enum CertRefusal {
    #[error("the bytes are no JSON")]
    NotJson,
    #[error("a field of the certificate has not its shape")]
    Field(CertField),
    #[error("no memory was left")]
    NoMemory,
}

impl From<NoMemory> for CertRefusal {
    ghost use Rattle.std.specs.Prelude.{◌≡◌};
    ghost use Rattle.cert_json.specs.declared.cert.CertRefusal.TheVariants.{NoMemory};

    ghost from_gives = { λ _ e. e ≡ NoMemory };

    fn from(_error: NoMemory) -> CertRefusal {
        CertRefusal::NoMemory
    }
}
