// Rule 1: a line feed ends a line, and the last line may lack it.
ghost use Rattle.std.specs.Prelude.{◌≤◌, length};
ghost use Rattle.importer_lines.specs.Lines.{LineEnd};

// The place of the line feed that ends the line that begins at `from`, or the text's length where none does.
pub fn line_end(text: &[u8], from: usize) -> usize
    requires { from ≤ length text.now }
    ensures { LineEnd text.now from result }
{
    let size = text[from..].iter().position(|&byte| byte == b'\n');
    from + size.unwrap_or(text.len() - from)
}
