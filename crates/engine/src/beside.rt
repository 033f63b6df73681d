// A machine beside its two banks, lent for a cycle: what flows goes between the three.
use crate::machine::Machine;

#[derive(Drop)]
pub(crate) struct Beside<'a, L, R> {
    pub machine: &'a mut Machine,
    pub left: &'a mut L,
    pub right: &'a mut R,
}
