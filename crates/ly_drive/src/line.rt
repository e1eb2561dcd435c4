ghost use Rattle.std.specs.Prelude.{◌≡◌, IfErr, IfOk, OnOk};
ghost use Rattle.ly_drive.specs.Private.Lines.{IsLineAnswered, IsLineStopped};
ghost use Rattle.ly_feed.specs.Held.{nothing_read};
ghost use Rattle.ly_feed.specs.TextFault.{failed_write};
ghost use Rattle.ly_print.specs.Device.{next_count, IsFailedWrite, WroteNothing};

use ly_feed::{Feed, FeedFault, Need, Outcome, Prepared, TextFault};
use ly_print::{AnswerForm, Sink, write_whole};

/// Parses a line as a text of its own with a prepared table set, and writes the result in a form.
pub(crate) fn answer_line<W: Sink>(
    prepared: &Prepared<'_>,
    form: AnswerForm,
    line: &[u8],
    writer: &mut W,
) -> Result<Outcome, TextFault>
    ensures answered { IfOk result (IsLineAnswered form prepared.now line.now (W.contents writer.old)
        (W.contents writer.new)) }
    ensures stopped { IfErr result (IsLineStopped form prepared.now line.now (W.contents writer.old)
        (W.contents writer.new)) }
    ensures write { IfErr result (λ e. IsFailedWrite (failed_write e)
        → W.failures writer.new ≡ next_count (W.failures writer.old)) }
    ensures writer_held { OnOk result (W.failures writer.new ≡ W.failures writer.old) }
    ensures kept { IfErr result (λ e. WroteNothing (failed_write e) → W.failures writer.new ≡ W.failures writer.old) }
{
    let mut feed = Feed::new(prepared, form);
    let answered = feed_whole(&mut feed, line, writer);
    drop(feed);
    answered
}

/// Feeds a new feed with a whole text, and writes the result.
fn feed_whole<W: Sink>(
    feed: &mut Feed<'_>,
    text: &[u8],
    writer: &mut W,
) -> Result<Outcome, TextFault>
    requires begins { feed.old ≡ nothing_read feed.old.form feed.old.set }
    ensures answered { IfOk result (IsLineAnswered feed.old.form feed.old.set text.now (W.contents writer.old)
        (W.contents writer.new)) }
    ensures stopped { IfErr result (IsLineStopped feed.old.form feed.old.set text.now (W.contents writer.old)
        (W.contents writer.new)) }
    ensures write { IfErr result (λ e. IsFailedWrite (failed_write e)
        → W.failures writer.new ≡ next_count (W.failures writer.old)) }
    ensures writer_held { OnOk result (W.failures writer.new ≡ W.failures writer.old) }
    ensures kept { IfErr result (λ e. WroteNothing (failed_write e) → W.failures writer.new ≡ W.failures writer.old) }
{
    match feed.piece(text) {
        Ok(Need::More) => feed.finish_into(writer),
        Ok(Need::Settled(outcome, answer)) => {
            write_whole(writer, &answer)?;
            Ok(outcome)
        }
        Err(FeedFault::FaultyTables) => Err(TextFault::FaultyTables),
        Err(FeedFault::OutOfMemory) => Err(TextFault::OutOfMemory),
        // the feed hasn't ended yet, and a text in memory has less than 2^64 bytes
        Err(FeedFault::TooLong | FeedFault::Over) => unreachable!(),
    }
}
