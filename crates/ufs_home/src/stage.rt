use ufs_held::HeldFile;
use ufs_held_names::Newborn;
use ufs_joint::Naming;

/// A file at the primary: it was held, or nothing is known of its commits, since it was made and not asked for yet.
#[derive(Drop)]
pub(crate) enum Stage<N: Naming> {
    Held(HeldFile<N>),
    Young(Newborn<N>),
}
