//! What the comments at the front of a script name.
ghost use Rattle.std.specs.Prelude.{◌≡◌, option_map};
ghost use Rattle.script_lines.specs.Text.{lines_of};
ghost use Rattle.rt1553_verify.specs.Heading.{named};

use line_format::after;
use refused_lines::first_line;

/// What follows the key, as `# Profile: `, in the first line that begins with it, of the comments at the front of a script.
/// The first line that is no comment ends them.
pub fn named<'a>(script: &'a [u8], key: &[u8]) -> Option<&'a [u8]>
    ensures { option_map (λ name. name.now) result ≡ named key.now (lines_of script.now) }
{
    let mut rest = script;
    while !rest.is_empty() {
        let (line, more) = first_line(rest);
        if let Some(name) = after(line, key) {
            return Some(name);
        }
        match after(line, b"#") {
            Some(_) => rest = more,
            None => return None,
        }
    }
    None
}
