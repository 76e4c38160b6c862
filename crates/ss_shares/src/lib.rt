//! The theory of cuts: what the parts of a run hold at the end of a window, and the one list that they make
//! together. It stands over the theory of windows and, as that does, has no code: its definitions stand in
//! `specs/`, its theorems in `proofs/`, and the crates that rest on it have them on their functions.
#![tactic(auto)]
