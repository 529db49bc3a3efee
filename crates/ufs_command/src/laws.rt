// A law of the definitions, the contract of a function that does nothing.
ghost use Rattle.ufs_command.specs.Laws.{StandsAsBegun};

use ufs_crash_laws::trees_are_explained;
use ufs_model::a_start_is_a_tree;
use ufs_promise_laws::image_start_law;

/// A proper disk that is left as it is stands for what a session on it begins with.
pub fn unserved_law(sectors: u32)
    ensures { StandsAsBegun sectors }
{
    image_start_law(sectors as usize);
    a_start_is_a_tree();
    trees_are_explained();
}
