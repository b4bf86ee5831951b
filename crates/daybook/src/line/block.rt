// Lines put at the end of a text, each ended by a newline.
ghost use Rattle.std.specs.Prelude.{◌≡◌, ◌++◌, IfSome, string_bytes, OnOk, OnErr};
ghost use Rattle.daybook.specs.Lines.{ended_line, printed_lines, FirstLinesPut};

use std::alloc::AllocError;
use std::fmt::Display;

// A line's text begins with room for so many bytes, more than any line of a replay's listing has. A longer one makes more.
const LINE_ROOM: usize = 64;

// The line is made whole in a text of its own first, so that a want of memory leaves no part of it in `out`.
pub fn put_line<L: Display + Drop>(out: &mut String, line: L) -> Result<(), AllocError>
    ensures put { OnOk result (IfSome (L.output line)
        (λ bs. string_bytes out.new ≡ string_bytes out.old ++ ended_line bs)) }
    ensures untouched { OnErr result (string_bytes out.new ≡ string_bytes out.old) }
{
    let mut text = String::with_capacity(*out.allocator(), LINE_ROOM)?;
    write!(text, "{line}\n")?;
    out.push_str(&text)
}

// A want of memory leaves whole lines, but not all of them.
pub fn put_lines<L: Display + Copy>(out: &mut String, lines: &[L]) -> Result<(), AllocError>
    ensures put { OnOk result (IfSome (printed_lines L.output lines.now)
        (λ bs. string_bytes out.new ≡ string_bytes out.old ++ bs)) }
    ensures first_put { OnErr result
        (FirstLinesPut L.output lines.now (string_bytes out.old) (string_bytes out.new)) }
{
    for line in lines {
        put_line(out, *line)?;
    }
    Ok(())
}
