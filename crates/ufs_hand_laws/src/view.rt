use std::marker::{Model, PhantomData};

/// What a hand knows. No value of it is made.
pub struct Knowledge {
    none: PhantomData<()>,
}

impl Model for Knowledge {
    ghost use Rattle.ufs_hand_laws.specs.Parts.{View, spent};
    ghost use Rattle.ufs_hand_laws.specs.Codes.{view_code};

    ghost Value = { View };

    ghost coded = { view_code };

    ghost view = { λ _. spent };
}
