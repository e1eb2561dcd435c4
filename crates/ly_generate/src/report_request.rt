/// Whether to make the report of a specification.
#[derive(Clone, Copy, Debug, PartialEq, Eq)]
pub enum ReportRequest {
    /// Make the report.
    Wanted,
    /// Make no report.
    Unwanted,
}
