//! The number of conflicts of each kind.
ghost use Rattle.std.specs.Prelude.{◌≡◌, ◌++◌, map, OnOk};
ghost use Rattle.ly_resolve.specs.Conflicts.{reduce_reduce, shift_reduce};
ghost use Rattle.ly_resolve.specs.Values.{kind_from};
ghost use Rattle.ly_report.specs.Counts.{AreCounts};
ghost use Rattle.ly_report.specs.Report.{count_of, counts_line};

use crate::line::push_decimal;
use ly_resolve::{ConflictKind, Conflicts, Resolved};
use std::alloc::AllocError;

/// The number of conflicts of each kind in a specification.
#[derive(Clone, Copy, Debug, PartialEq, Eq)]
pub struct ConflictCounts {
    /// The number of conflicts between a shift and a reduction.
    pub shift_reduce: usize,
    /// The number of conflicts between two reductions.
    pub reduce_reduce: usize,
}

impl ConflictCounts {
    /// The counts of a specification's conflicts.
    pub fn of(resolved: &Resolved<'_>) -> ConflictCounts
        ensures { AreCounts resolved.now.spec result }
    {
        // by the contracts of both, these are the conflicts of the specification's useful rules
        let _spec = resolved.spec();
        let _lr0 = resolved.lr0();
        ConflictCounts::among(resolved.conflicts())
    }

    /// The counts of these conflicts.
    pub(crate) fn among(conflicts: &Conflicts) -> ConflictCounts
        ensures shifts { result.shift_reduce
            ≡ count_of shift_reduce (map (λ c. kind_from c.kind) conflicts.now) }
        ensures reductions { result.reduce_reduce
            ≡ count_of reduce_reduce (map (λ c. kind_from c.kind) conflicts.now) }
    {
        ConflictCounts {
            shift_reduce: conflicts.count(ConflictKind::ShiftReduce),
            reduce_reduce: conflicts.count(ConflictKind::ReduceReduce),
        }
    }
}

/// Appends the line of a report with the number of conflicts of each kind.
///
/// It fails if an allocation fails. How much has been appended by then is unspecified.
pub fn push_counts(out: &mut Vec<u8>, counts: &ConflictCounts) -> Result<(), AllocError>
    ensures { OnOk result
        (out.new.items ≡ out.old.items ++ counts_line counts.now.shift_reduce counts.now.reduce_reduce) }
{
    out.extend_from_slice(b"conflicts: ")?;
    push_decimal(out, counts.shift_reduce)?;
    out.extend_from_slice(b" shift/reduce, ")?;
    push_decimal(out, counts.reduce_reduce)?;
    out.extend_from_slice(b" reduce/reduce\n")?;
    Ok(())
}
