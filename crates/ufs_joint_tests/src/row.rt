// The worked rows, as laws.
ghost use Rattle.ufs_joint_tests.specs.NamesRow.{NamesRowKeeps};
ghost use Rattle.ufs_joint_tests.specs.Row.{RowKeeps};
ghost use Rattle.ufs_layout.specs.Areas.{IsGeometry};

use ufs_joint::{
    a_commit_of_names_ends, a_failed_commit_ends, a_file_request_is_drawn, a_hand_knows,
    a_names_request_is_drawn, a_turn_is_made, an_acknowledgement_is_drawn, an_entry_is_drawn,
    births_are_told, hands_are_split_and_joined,
};
use ufs_layout::Geometry;
use ufs_promise_laws::always_law;

/// Two servers write, one of them while the other's turn of the store fails and the store stops, and a third acknowledges: the state
/// is sound.
pub fn a_row_is_sound(geometry: &Geometry)
    requires { IsGeometry geometry.now }
    ensures { RowKeeps geometry.now }
{
    an_entry_is_drawn();
    a_turn_is_made();
    hands_are_split_and_joined();
    a_hand_knows();
    a_file_request_is_drawn();
    an_acknowledgement_is_drawn();
    a_failed_commit_ends(geometry);
    always_law(geometry);
}

/// A request of the names is drawn, they are committed while another server writes, and the hand's files are told their births: the
/// state is sound.
pub fn a_row_of_names_is_sound(geometry: &Geometry)
    requires { IsGeometry geometry.now }
    ensures { NamesRowKeeps geometry.now }
{
    an_entry_is_drawn();
    a_turn_is_made();
    hands_are_split_and_joined();
    a_hand_knows();
    births_are_told();
    a_names_request_is_drawn(geometry);
    a_file_request_is_drawn();
    a_commit_of_names_ends();
    always_law(geometry);
}
