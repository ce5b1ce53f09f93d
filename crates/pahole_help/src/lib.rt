//! What the program says of itself: the answers to `--help`, `--version` and `--explain=N`, where
//! one of them is the only word.
//!
//! `answer` prints a page whole, or answers `None` where the words are for a run. The pages are
//! those of `help`, `version` and `explanation_tables`; the explanations are made from
//! `docs/errors.toml`. The key of `--explain=` is a text: `061` explains nothing.
#![tactic(auto)]

pub mod answers;
pub mod explanations;
pub mod pages;
pub mod shipped;

pub use answers::answer;
pub use explanations::explanation_tables;
pub use pages::{Explanation, Pages};
pub use shipped::{help, version};
