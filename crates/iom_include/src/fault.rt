ghost use Rattle.std.specs.Prelude.{◌≡◌};
ghost use Rattle.iom_include.specs.declared.fault.IncludeFault.TheVariants as include;
ghost use Rattle.iom_include.specs.declared.fault.TextFault.TheVariants as answered;

use std::alloc::AllocError;

/// Why there is no text of a name.
#[derive(Clone, Copy, Debug, PartialEq)]
pub enum TextFault {
    /// It can't be read.
    Unreadable,
    /// It is longer than a script may be.
    TooLong,
    /// An allocation was refused.
    OutOfMemory,
}

impl From<AllocError> for TextFault {
    ghost from_gives = { λ _ e. e ≡ answered.OutOfMemory };

    fn from(_error: AllocError) -> Self {
        TextFault::OutOfMemory
    }
}

/// Why a line can't stand for the lines of a text.
#[derive(Clone, Copy, Debug, PartialEq)]
pub enum Reason {
    /// The text can't be read.
    Unreadable,
    /// The text is longer than a script may be; or what stands for a line of the script, up to this text's end, has more than 2^26 bytes or
    /// more than 2^20 lines.
    TooLong,
    /// Eight texts include each other so, and this is a further one; as where a text includes itself.
    TooDeep,
}

/// Why a script can't be read on.
#[derive(Debug, Drop)]
pub enum IncludeFault {
    /// A line, counted from 1 in the text that is called `from`, names a text that can't stand for it, by the name `name`.
    Refused {
        reason: Reason,
        name: String,
        from: String,
        line: u64,
    },
    /// The script has a line that is longer than a script may be.
    LongLine,
    /// An allocation was refused.
    OutOfMemory,
}

impl From<AllocError> for IncludeFault {
    ghost from_gives = { λ _ e. e ≡ include.OutOfMemory };

    fn from(_error: AllocError) -> Self {
        IncludeFault::OutOfMemory
    }
}
