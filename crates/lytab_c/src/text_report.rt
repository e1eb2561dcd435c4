use crate::report::Report;

/// The result for one of many texts.
#[repr(C)]
#[derive(Clone, Copy)]
pub struct TextReport {
    /// What a call with this text alone returns.
    pub status: u32,
    /// Always 0.
    pub unused: u32,
    /// Where its parts end in the block. They begin where those of the previous text end.
    pub parts_end: u64,
    /// Where its expected terminals end in the block. They begin where those of the previous text end.
    pub expected_end: u64,
    /// What a call with this text alone reports.
    pub report: Report,
}
