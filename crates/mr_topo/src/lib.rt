//! Topologies after Merlin: the single router, the mesh and the torus. Routes and peers are computed from numbers, without tables.
#![tactic(auto)]

mod grid;
mod mesh;
mod shape;
mod single;
mod torus;

pub use mesh::Mesh;
pub use shape::numbers_in;
pub use single::Single;
pub use torus::Torus;

#[cfg(test)]
mod tests;
