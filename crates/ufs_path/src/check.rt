// The faults of a path's text.
ghost use Rattle.std.specs.Prelude.{◌≡◌, ◌==◌, IfSome, IsSome, option_and_then};
ghost use Rattle.std.specs.List.{list_all};
ghost use Rattle.ufs_model.specs.Paths as paths;
ghost use Rattle.ufs_path.specs.Faults.{name_fault as fault_of_name, names_fault, first_fault, errno_of};

use crate::fault::PathFault;

// The most bytes of a path.
const MAX_PATH: usize = 1_023;

// The most bytes of a component.
const MAX_NAME: usize = 58;

/// Why the text is refused, `None` where it isn't. Takes no memory.
pub fn path_fault(path: &[u8]) -> Option<PathFault>
    ensures fault { result ≡ first_fault path.now }
    ensures errno { option_and_then errno_of result ≡ paths.text_refusal path.now }
    ensures told { IfSome result (λ fault. IsSome (errno_of fault)) }
{
    if path.is_empty() {
        return Some(PathFault::Empty);
    }
    if path[0] != b'/' {
        return Some(PathFault::NotAbsolute);
    }
    if path.len() > MAX_PATH {
        return Some(PathFault::TooLong);
    }
    if let Some(fault) = component_fault(path) {
        return Some(fault);
    }
    if ends_in_slash(path) && !is_slashes(path) {
        return Some(PathFault::TrailingSlash);
    }
    None
}

// Of the first component that has one.
fn component_fault(path: &[u8]) -> Option<PathFault>
    ensures { result ≡ names_fault (paths.components path.now) }
{
    for name in path.split(|b| *b == b'/') {
        if let Some(fault) = name_fault(name) {
            return Some(fault);
        }
    }
    None
}

fn name_fault(name: &[u8]) -> Option<PathFault>
    ensures { result ≡ fault_of_name name.now }
{
    if !is_printable(name) {
        return Some(PathFault::BadComponent);
    }
    if is_dots(name) {
        return Some(PathFault::BadComponent);
    }
    if name.len() > MAX_NAME {
        return Some(PathFault::NameTooLong);
    }
    None
}

fn is_printable(name: &[u8]) -> bool
    ensures { result ≡ list_all paths.in_range name.now }
{
    name.iter().all(|b| b'!' <= *b && *b <= b'~')
}

fn is_dots(name: &[u8]) -> bool
    ensures { result ≡ paths.is_dots name.now }
{
    match name {
        [a] => *a == b'.',
        [a, b] => *a == b'.' && *b == b'.',
        _ => false,
    }
}

fn ends_in_slash(text: &[u8]) -> bool
    ensures { result ≡ paths.ends_in_slash text.now }
{
    match text {
        [.., last] => *last == b'/',
        [] => false,
    }
}

// Whether it has no component.
fn is_slashes(text: &[u8]) -> bool
    ensures { result ≡ list_all (λ b. b == 47) text.now }
{
    text.iter().all(|b| *b == b'/')
}
