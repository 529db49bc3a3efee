// Paths compared by their components, on the texts themselves and so without memory.
ghost use Rattle.std.specs.Prelude.{◌≡◌, ◌<◌, ◌≤◌, ◌==◌, ◌∷◌, [], IfNone, IfSome, length, not};
ghost use Rattle.std.specs.List.{position, position_or_len};
ghost use Rattle.ufs_model.specs.Paths.{components};
ghost use Rattle.ufs_lease.specs.Leases.{is_at_or_below};

fn first_name_byte(text: &[u8]) -> Option<usize>
    ensures { result ≡ position (λ b. not (b == 47)) text.now }
{
    text.iter().position(|b| *b != b'/')
}

fn first_slash(text: &[u8]) -> Option<usize>
    ensures { result ≡ position (λ b. b == 47) text.now }
{
    text.iter().position(|b| *b == b'/')
}

// How many slashes a text begins with.
fn slashes(text: &[u8]) -> usize
    ensures count { result ≡ position_or_len (λ b. not (b == 47)) text.now }
    ensures within { result ≤ length text.now }
{
    first_name_byte(text).unwrap_or(text.len())
}

// How many bytes stand before its first slash.
fn name_len(text: &[u8]) -> usize
    ensures count { result ≡ position_or_len (λ b. b == 47) text.now }
    ensures within { result ≤ length text.now }
{
    first_slash(text).unwrap_or(text.len())
}

// The first component of a text, and the text behind it.
fn first_name(text: &[u8]) -> Option<(&[u8], &[u8])>
    ensures none { IfNone result (components text.now ≡ []) }
    ensures some { IfSome result (λ cut. components text.now ≡ cut.0.now ∷ components cut.1.now) }
    ensures shorter { IfSome result (λ cut. length cut.1.now < length text.now) }
{
    let names = &text[slashes(text)..];
    if names.is_empty() {
        return None;
    }
    let end = name_len(names);
    Some((&names[..end], &names[end..]))
}

/// Whether a path is another or lies below it. Several slashes count as one.
pub(crate) fn is_at_or_below(above: &[u8], path: &[u8]) -> bool
    ensures { result ≡ is_at_or_below above.now path.now }
{
    let mut dir = above;
    let mut below = path;
    while let Some((name, names)) = first_name(dir) {
        let Some((own, rest)) = first_name(below) else {
            return false;
        };
        if own != name {
            return false;
        }
        dir = names;
        below = rest;
    }
    true
}
