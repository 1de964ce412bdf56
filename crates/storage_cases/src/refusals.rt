//! What refusals say, as docs/FORMATS.md has it.

use frames::RecordFault;
use recover::{OpenFault, ReadFault};
use std::alloc::Global;
use std::fmt::{Debug, Display, Write};
use trace_disk::DiskFailed;
use trace_log::LogFault;

/// Refusals by their names, each with its text.
fn listed<F: Debug + Display>(alloc: Global, faults: &[F]) -> Option<String> {
    let mut text = String::new(alloc);
    for fault in faults {
        if !text.is_empty() {
            text.push_str(", ").ok()?;
        }
        write!(text, "{fault:?}: {fault}").ok()?;
    }
    Some(text)
}

/// The refusals of what has this name.
pub fn refusals_text(alloc: Global, name: &str) -> Option<String> {
    match name {
        "record" => listed(
            alloc,
            &[
                RecordFault::Short,
                RecordFault::BadKind,
                RecordFault::BadPayload,
                RecordFault::Memory,
            ],
        ),
        "disk" => listed(alloc, &[DiskFailed]),
        "log" => listed(
            alloc,
            &[
                LogFault::DeviceFailed,
                LogFault::Broken,
                LogFault::TooLong,
                LogFault::Memory,
                LogFault::NotEmpty,
            ],
        ),
        "open" => listed(
            alloc,
            &[
                OpenFault::NotAStore,
                OpenFault::Damaged { segment: 0 },
                OpenFault::Damaged {
                    segment: 4_294_967_295,
                },
                OpenFault::NewerVersion,
                OpenFault::DeviceFailed,
                OpenFault::Memory,
            ],
        ),
        "read" => listed(
            alloc,
            &[
                ReadFault::DeviceFailed,
                ReadFault::Damaged,
                ReadFault::Memory,
            ],
        ),
        _ => None,
    }
}
