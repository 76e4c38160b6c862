//! The theory of windows: the run of one ordered list of events, cut into windows and divided among parts.
//! It knows nothing of components and lines, and has no code: its definitions stand in `specs/`, its
//! theorems in `proofs/`, and the crates that rest on it have them on their functions.
#![tactic(auto)]
