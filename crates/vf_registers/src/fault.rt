use thiserror::Error;

/// Why a register was not read or written. All registers are as before then.
#[derive(Clone, Copy, Debug, PartialEq, Eq, Error)]
pub enum RegFault {
    /// There is no register of this number, or no such function.
    #[error("no register {number}")]
    NoRegister { number: u32 },
    /// The register of this number can only be read.
    #[error("register {number} can only be read")]
    ReadOnly { number: u32 },
}
