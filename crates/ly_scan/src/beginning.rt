ghost use Rattle.std.specs.Prelude.{◌≡◌, Bool};
ghost use Rattle.ly_scan.specs.Beginning.{anywhere, by_line};
ghost use Rattle.ly_scan.specs.declared.state_rows.RowStart.{RowStart as start};

use crate::state_rows::RowStart;
use ly_base::Place;

/// The start of walks in the initial condition, looked up once before a loop over lexemes. The loop is compiled for
/// each implementation, so it uses no registers for what it doesn't need.
pub trait Beginning {
    /// The start, at the start of a line or not.
    ghost begun: { Self → Bool → start };

    /// The start of a walk at this place.
    fn start(&self, place: &Place<'_>) -> RowStart
        ensures { result ≡ begun self.now place.now.line };
}

/// One start for all places, at the start of a line or not.
#[derive(Clone, Copy)]
pub struct Anywhere {
    /// The start.
    pub(crate) start: RowStart,
}

impl Beginning for Anywhere {
    ghost begun = { anywhere };

    #[inline(always)] // leaves the registers to a loop
    fn start(&self, _place: &Place<'_>) -> RowStart {
        self.start
    }
}

/// Two starts, for scanners with rules that depend on the start of a line.
#[derive(Clone, Copy)]
pub struct ByLine {
    /// The start at the start of a line.
    pub(crate) at_line: RowStart,
    /// The start elsewhere.
    pub(crate) elsewhere: RowStart,
}

impl Beginning for ByLine {
    ghost begun = { by_line };

    #[inline(always)] // as above
    fn start(&self, place: &Place<'_>) -> RowStart {
        if place.at_line_start() {
            return self.at_line_start();
        }
        self.elsewhere
    }
}

impl ByLine {
    /// The start at the start of a line.
    #[inline(never)] // keeps it in a branch, which is mostly predicted right; else it is computed each time
    fn at_line_start(&self) -> RowStart
        ensures { result ≡ self.now.at_line }
    {
        self.at_line
    }
}
