ghost use Rattle.std.specs.Prelude.{◌≡◌, ◌++◌, OnOk, length};
ghost use Rattle.ly_spans.specs.Spans.{json_span, IsWithin};

use crate::line_starts::LineStarts;
use crate::span::Span;
use ly_base::OutOfMemory;
use ly_print::push_json_location;

/// Appends the span of a part of a text as `,"start":[4,1,5],"end":[5,1,6]`: members of a JSON object that follow
/// another member. Fails if memory runs out.
pub fn push_json_span(
    out: &mut Vec<u8>,
    lines: &LineStarts<'_>,
    span: Span,
) -> Result<(), OutOfMemory>
    requires { IsWithin (length lines.now) span }
    ensures { OnOk result (out.new.items ≡ out.old.items ++ json_span lines.now span) }
{
    let start = lines.locate(span.start);
    let end = lines.locate_near(span.end, start.line);
    out.extend_from_slice(b",\"start\":")?;
    push_json_location(out, span.start as u64, start)?;
    out.extend_from_slice(b",\"end\":")?;
    Ok(push_json_location(out, span.end as u64, end)?)
}
