use ly_base::{Cut, ScanAction};

/// A rule of a scanner.
#[derive(Clone, Copy, Debug, PartialEq, Eq)]
pub struct ScanRule {
    /// Its effect when it matches.
    pub action: ScanAction,
    /// Its trailing context.
    pub cut: Cut,
}
