//! The capacity that a volume is granted.
use csi_types::{Status, grant};

const HALF: u64 = 1u64 << 63;

const GIB: u64 = 1u64 << 30;

// What is required, the limit and the greatest capacity, and what is granted.
const CAPACITIES: &[(u64, u64, u64, Result<u64, Status>)] = &[
    (0, 1, 1000, Ok(1)),
    (0, 0, 1000, Err(Status::InvalidArgument)),
    (HALF, 0, 1000, Err(Status::InvalidArgument)),
    (2, 1, 1000, Err(Status::OutOfRange)),
    (1001, 0, 1000, Err(Status::OutOfRange)),
    (1000, 0, 1000, Ok(1000)),
    (0, 2000, 1000, Err(Status::OutOfRange)),
    (0, HALF - 1, HALF - 1, Ok(GIB)),
];

#[test]
fn capacities_are_granted(rt: HostRuntime) {
    for (required, limit, greatest, granted) in CAPACITIES {
        let found = grant(*required, *limit, *greatest);
        assert!(rt; found == *granted, "{required} to {limit}: {found:?}");
    }
}
