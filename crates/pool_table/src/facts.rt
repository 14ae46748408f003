//! What seats know, as a type whose values are in proofs alone.

use std::marker::Model;

/// What a seat knows. It exists in proofs alone: no value of it is ever made.
pub struct SeatFacts {}

impl Model for SeatFacts {
    ghost use Rattle.pool_table.specs.Views.{SeatView, spent};

    ghost Value = { SeatView };

    ghost view = { λ _. spent };
}
