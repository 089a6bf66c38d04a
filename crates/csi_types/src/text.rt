//! Texts with limits: UTF-8 of a stated number of bytes. A contract sees a text as its bytes.
ghost use Rattle.std.specs.Prelude.{◌≡◌};
ghost use Rattle.csi_types.specs.Public.TextFault.{text_fault_number};

mod detail;
mod fs_type;
mod limited;

pub use detail::Detail;
pub use fs_type::FsType;
pub use limited::{LimitedText, Name, NodeId, Target};
use thiserror::Error;

/// Why a text could not be made: the first of these that holds, by its number (this profile's own).
#[derive(Clone, Copy, Debug, PartialEq, Eq, Error)]
pub enum TextFault {
    /// The text is empty, and must not be.
    #[error("the text is empty")]
    Empty = 1,
    /// The text has more bytes than its limit.
    #[error("the text is too long")]
    TooLong = 2,
    /// An allocation was refused.
    #[error("out of memory")]
    NoMemory = 3,
}

impl TextFault {
    /// The fault's number.
    pub fn number(self) -> u8
        ensures { result ≡ text_fault_number self }
    {
        self as u8
    }
}
