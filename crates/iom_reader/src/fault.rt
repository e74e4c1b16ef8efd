use thiserror::Error;

/// Why a run of a script ended before its end.
#[derive(Clone, Copy, Debug, PartialEq, Error)]
pub enum RunFault {
    /// A read of the script failed or was interrupted.
    #[error("read failed")]
    Read,
    /// A write of an answer failed, was interrupted or took no byte, or a flush failed.
    #[error("write failed")]
    Write,
    /// The script has more than 2^20 lines or more than 2^26 bytes.
    #[error("script too long")]
    TooLong,
}
