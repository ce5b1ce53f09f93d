//! What every layer stands on: lists of items, numbers, LEB128 numbers and texts in bytes, names as
//! slices, the places and numbers of faults, the limits of a run, and a counter of steps.
//!
//! `TextEnds::of` takes memory, a quarter of its section's bytes; no other call does. It stands here
//! since `Name` does, whose digests of long names it computes once for all texts of a section.
#![tactic(auto)]

pub mod fault_numbers;
pub mod leb128;
pub mod listed;
pub mod names;
pub mod numbers;
pub mod places;
mod shared;
pub mod steps;
pub mod text_ends;
pub mod text_section;

pub use leb128::{LebFault, sleb, uleb};
pub use listed::{Bytes, Listed};
pub use names::{Name, text_at};
pub use numbers::{Order, number};
pub use places::{InfoOffset, Limits, Place, SHIPPED, Section};
pub use shared::assert_send_sync;
pub use steps::Steps;
pub use text_ends::TextEnds;
pub use text_section::TextSection;
