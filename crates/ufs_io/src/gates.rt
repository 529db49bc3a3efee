// The gate that is always open.
use crate::Gate;

/// Does nothing.
#[derive(Drop)]
pub struct OpenGate;

impl Gate for OpenGate {
    fn pass(&self, _actor: u8, _turn: u64) {}
}
