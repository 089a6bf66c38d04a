//! How a call ended.
ghost use Rattle.std.specs.Prelude.{◌≡◌};
ghost use Rattle.csi_types.specs.Public.Status.{status_code, status_from_code};
ghost use Rattle.csi_types.specs.Public.Names.{status_name};

/// How a call ended: the status codes of gRPC, which CSI's spec.md, "Error Scheme", uses.
#[derive(Clone, Copy, Debug, PartialEq, Eq)]
pub enum Status {
    Ok = 0,
    Cancelled = 1,
    Unknown = 2,
    InvalidArgument = 3,
    DeadlineExceeded = 4,
    NotFound = 5,
    AlreadyExists = 6,
    PermissionDenied = 7,
    ResourceExhausted = 8,
    FailedPrecondition = 9,
    Aborted = 10,
    OutOfRange = 11,
    Unimplemented = 12,
    Internal = 13,
    Unavailable = 14,
    DataLoss = 15,
    Unauthenticated = 16,
}

impl Status {
    /// The status's code in gRPC.
    pub fn code(self) -> u8
        ensures { result ≡ status_code self }
    {
        self as u8
    }

    /// The status of a code, if it has one.
    pub fn from_code(code: u8) -> Option<Status>
        ensures { result ≡ status_from_code code }
    {
        match code {
            0 => Some(Status::Ok),
            1 => Some(Status::Cancelled),
            2 => Some(Status::Unknown),
            3 => Some(Status::InvalidArgument),
            4 => Some(Status::DeadlineExceeded),
            5 => Some(Status::NotFound),
            6 => Some(Status::AlreadyExists),
            7 => Some(Status::PermissionDenied),
            8 => Some(Status::ResourceExhausted),
            9 => Some(Status::FailedPrecondition),
            10 => Some(Status::Aborted),
            11 => Some(Status::OutOfRange),
            12 => Some(Status::Unimplemented),
            13 => Some(Status::Internal),
            14 => Some(Status::Unavailable),
            15 => Some(Status::DataLoss),
            16 => Some(Status::Unauthenticated),
            _ => None,
        }
    }

    /// The status's name in gRPC, which CSI's spec.md, "Error Scheme", uses.
    pub fn name(self) -> &'static str
        ensures { result.now ≡ status_name self }
    {
        match self {
            Status::Ok => "OK",
            Status::Cancelled => "CANCELLED",
            Status::Unknown => "UNKNOWN",
            Status::InvalidArgument => "INVALID_ARGUMENT",
            Status::DeadlineExceeded => "DEADLINE_EXCEEDED",
            Status::NotFound => "NOT_FOUND",
            Status::AlreadyExists => "ALREADY_EXISTS",
            Status::PermissionDenied => "PERMISSION_DENIED",
            Status::ResourceExhausted => "RESOURCE_EXHAUSTED",
            Status::FailedPrecondition => "FAILED_PRECONDITION",
            Status::Aborted => "ABORTED",
            Status::OutOfRange => "OUT_OF_RANGE",
            Status::Unimplemented => "UNIMPLEMENTED",
            Status::Internal => "INTERNAL",
            Status::Unavailable => "UNAVAILABLE",
            Status::DataLoss => "DATA_LOSS",
            Status::Unauthenticated => "UNAUTHENTICATED",
        }
    }
}
