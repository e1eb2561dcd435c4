ghost use Rattle.ly_report.specs.Laws.{CountsAreOne, ReportIsOne, ReportTellsCounts};

/// Theorem: a specification has exactly one report.
pub fn report_is_one()
    ensures { ReportIsOne }
{}

/// Theorem: a specification has exactly one count of conflicts of each kind.
pub fn counts_are_one()
    ensures { CountsAreOne }
{}

/// Theorem: the line that `push_counts` prints for a specification's counts is part of its report.
pub fn report_tells_counts()
    ensures { ReportTellsCounts }
{}
