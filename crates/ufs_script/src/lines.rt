ghost use Rattle.std.specs.Prelude.{◌≡◌, ◌<◌, ◌∷◌, [], IfSome, IfNone, length};
ghost use Rattle.ufs_script.specs.Lines.{ended_lines, unended_line};
ghost use Rattle.ufs_script.specs.Lines as specs;

use crate::words::{Cut, place_of};

// Without the byte 0x0d that stands last, where one does.
fn without_return(line: &[u8]) -> &[u8]
    ensures { result.now ≡ specs.without_return line.now }
{
    let [start @ .., last] = line else {
        return line;
    };
    if *last == b'\r' { start } else { line }
}

/// The first line that has a line end, without it, and what follows it.
pub fn first_line(text: &[u8]) -> Option<Cut<'_>>
    ensures ended { IfSome result (λ cut. ended_lines text.now ≡ cut.front.now ∷ ended_lines cut.rest.now) }
    ensures unended { IfSome result (λ cut. unended_line text.now ≡ unended_line cut.rest.now) }
    ensures shorter { IfSome result (λ cut. length cut.rest.now < length text.now) }
    ensures no_end { IfNone result (ended_lines text.now ≡ []) }
    ensures last { IfNone result (unended_line text.now ≡ specs.all_unended (text.now ∷ [])) }
{
    let end = place_of(text, b'\n')?;
    Some(Cut {
        front: without_return(&text[..end]),
        rest: &text[end + 1..],
    })
}
