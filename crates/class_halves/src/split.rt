//! A class that was split.
use std::marker::Model;

/// A class of which some nodes left, and the new class that they went to: its twin.
#[derive(Clone, Copy)]
pub struct Split {
    pub(crate) class: u32,
    pub(crate) twin: u32,
}

impl Model for Split {
    ghost use Rattle.std.specs.Prelude.{ℕ};

    ghost Value = { ℕ × ℕ };

    ghost view = { λ s. (s.class, s.twin) };

    ghost inverse = { λ d. record { class = d.0; twin = d.1 } };
}
