ghost use Rattle.std.specs.Prelude.{◌≡◌, ◌<◌, IsErrOf, length, false};
ghost use Rattle.ly_print.specs.Device.{next_count};
ghost use Rattle.ly_drive.specs.Private.Reading.{IsReadInto};

use ly_feed::{Feed, FeedFault, Need, TextFault};
use ly_print::Source;

/// Reads once from a reader into a feed, at most the size of the buffer, and returns what the feed needs next. Returns
/// `None` at the end of the text.
pub(crate) fn read_into<R: Source>(
    feed: &mut Feed<'_>,
    reader: &mut R,
    room: &mut [u8],
) -> Result<Option<Need>, TextFault>
    requires goes_on { feed.old.over ≡ false }
    requires room { 0 < length room.old }
    ensures is_read { IsReadInto (length room.old) feed.old (R.remaining reader.old) (R.remaining reader.new) feed.new
        result }
    ensures room { length room.new ≡ length room.old }
    ensures read { IsErrOf result TextFault.Read → R.failures reader.new ≡ next_count (R.failures reader.old) }
    ensures held { (IsErrOf result TextFault.Read → ⊥) → R.failures reader.new ≡ R.failures reader.old }
{
    let count = match reader.pull(room) {
        Ok(0) => return Ok(None),
        Ok(count) => count,
        Err(_) => return Err(TextFault::Read),
    };
    match feed.piece(&room[..count]) {
        Ok(need) => Ok(Some(need)),
        Err(FeedFault::FaultyTables) => Err(TextFault::FaultyTables),
        Err(FeedFault::TooLong) => Err(TextFault::TooLong),
        Err(FeedFault::OutOfMemory) => Err(TextFault::OutOfMemory),
        // the feed hasn't ended yet
        Err(FeedFault::Over) => unreachable!(),
    }
}
