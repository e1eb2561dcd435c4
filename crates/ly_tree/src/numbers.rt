ghost use Rattle.std.specs.Prelude.{◌≡◌, IfOk};
ghost use Rattle.ly_tree.specs.Forest.{number_of};

use ly_base::OutOfMemory;

/// The number of values of the lower part.
const LOWER: usize = 4_294_967_296;

/// The two parts of the number of a long leaf or node, which have 48 bits together. The error is out of memory, for a
/// number that needs more bits: so many leaves or nodes would take over 4,000 terabytes.
#[inline(always)] // so that its result stays in registers
pub(crate) fn parts_of(number: usize) -> Result<(u16, u32), OutOfMemory>
    ensures { IfOk result (λ parts. number_of parts.0 parts.1 ≡ number) }
{
    let high = number / LOWER;
    if high > u16::MAX as usize {
        return Err(OutOfMemory);
    }
    Ok((high as u16, (number % LOWER) as u32))
}

/// The number with these parts.
pub(crate) fn number_of(high: u16, low: u32) -> usize
    ensures { result ≡ number_of high low }
{
    high as usize * LOWER + low as usize
}
