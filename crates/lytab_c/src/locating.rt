ghost use Rattle.std.specs.Prelude.{◌≡◌, take};
ghost use Rattle.ly_base.specs.Location.{column_behind, line_behind};

use ly_base::locate;

/// Sets the line and the column of a byte of a text. The first line and column are 1. For an offset past the text, they
/// are those of the text's end.
#[unsafe(no_mangle)]
pub extern "C" fn lytab_locate(text: &[u8], byte: usize, line: &mut u64, column: &mut u64)
    ensures line { line.new ≡ line_behind (take byte text.now) }
    ensures column { column.new ≡ column_behind (take byte text.now) }
{
    let location = locate(text, byte);
    *line = location.line;
    *column = location.column;
}
