//! Why a line was not read.
ghost use Rattle.std.specs.Prelude.{◌≡◌};
ghost use Rattle.csi_json.specs.Public.Requests.{request_fault_name};

use crate::values::Flaw;
use thiserror::Error;

/// Why a line was not read as a request.
#[derive(Clone, Copy, Debug, PartialEq, Eq, Error)]
pub enum RequestFault {
    /// The line isn't UTF-8, or isn't JSON.
    #[error("no JSON")]
    NotJson,
    /// It isn't an object with one key, a request's, or the value at the key isn't as the format says.
    #[error("bad line")]
    BadLine,
    /// The reply isn't a text of lower-case hexadecimal digits, two a byte.
    #[error("bad frame")]
    BadFrame,
    /// An allocation was refused.
    #[error("out of memory")]
    NoMemory,
}

impl RequestFault {
    /// The fault's name in the format.
    pub fn name(self) -> &'static str
        ensures { result.now ≡ request_fault_name self }
    {
        match self {
            RequestFault::NotJson => "NotJson",
            RequestFault::BadLine => "BadLine",
            RequestFault::BadFrame => "BadFrame",
            RequestFault::NoMemory => "NoMemory",
        }
    }
}
