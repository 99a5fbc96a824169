//! The numbers of a ledger, and the texts of faults.

use fv_aggregate::{Fault, OpenFault};
use fv_charge::{Ledger, overhead, span_of};
use fv_model::Kind;
use std::alloc::{AllocError, Global};
use std::fmt::Display;
use std::test::Fail;

const SPANS: [(u32, u32, u32, Option<u32>); 8] = [
    (1920, 0, 0, Some(4096)),
    (1921, 0, 0, Some(8192)),
    (1, 0, 8192, Some(8192)),
    (1, 0, 0, Some(4096)),
    (500_000, 48_320, 0, Some(1_048_576)),
    (500_000, 48_321, 0, None),
    (1, 0, 1_048_577, None),
    (u32::MAX, u32::MAX, u32::MAX, None),
];

const LEDGERS: [(Kind, u32, u32, u64); 3] = [
    (Kind::Volume, 2, 0, 140),
    (Kind::File, 1, 11, 52),
    (Kind::Thin, 3, 0, 43),
];

/// Whether each row of the spans holds.
fn spans_hold() -> bool {
    for (size, base, at_least, want) in SPANS {
        if span_of(size, base, at_least) != want {
            return false;
        }
    }
    [overhead(4096), overhead(8192), overhead(1_048_576)] == [20, 36, 4151]
}

/// Whether each row of the ledgers holds, for volumes of 100 blocks with a span of 4096.
fn commits_hold() -> bool {
    for (kind, charge, need, want) in LEDGERS {
        let ledger = Ledger {
            charge,
            need,
            size: 100,
            kind,
            span: 4096,
        };
        if ledger.commit() != want {
            return false;
        }
    }
    true
}

#[test]
fn spans_and_commits(rt: HostRuntime) {
    assert!(rt; spans_hold() && commits_hold());
}

const OPEN_FAULTS: [(OpenFault, &str); 4] = [
    (OpenFault::DiskFault, "DiskFault"),
    (OpenFault::NotAggregate, "NotAggregate"),
    (
        OpenFault::Damaged {
            at: 3,
            want: 1,
            found: 2,
        },
        "Damaged",
    ),
    (OpenFault::Memory, "Memory"),
];

const FAULTS: [(Fault, &str); 4] = [
    (Fault::DiskFault, "DiskFault"),
    (
        Fault::Damaged {
            at: 3,
            want: 1,
            found: 2,
        },
        "Damaged",
    ),
    (Fault::Memory, "Memory"),
    (Fault::Failed { faults: 7 }, "Failed"),
];

/// Whether a fault is printed as this name.
fn is_printed<F: Display>(alloc: Global, fault: &F, name: &str) -> Result<bool, AllocError> {
    let text = format!(in alloc; "{fault}")?;
    Ok(text.as_str() == name)
}

/// The text of each fault is its name.
#[test]
fn texts_of_faults(rt: HostRuntime) -> Result<(), Fail> {
    for (fault, name) in OPEN_FAULTS {
        assert!(rt; is_printed(rt.alloc(), &fault, name)?);
    }
    for (fault, name) in FAULTS {
        assert!(rt; is_printed(rt.alloc(), &fault, name)?);
    }
    Ok(())
}
