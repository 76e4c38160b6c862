//! A simulation that is about to begin.

use crate::wires::Wires;

/// The components of a simulation, each with its number as the place in the list, and the wires between them.
#[derive(Drop)]
pub struct Model<E> {
    pub elements: Vec<E>,
    pub wires: Wires,
}
