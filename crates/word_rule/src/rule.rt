//! The traits of a rule: the fact that every step keeps, what a step tells the seat that makes it, and how seats are made and joined.

ghost use Rattle.std.specs.Prelude.{List, ℕ};

/// A fact about the words of a table and the views of its seats, which each step keeps.
///
/// A seat is named by its number, its place among the views.
pub trait WordRule {
    /// What a seat knows. It exists in proofs alone: no value of it is ever made.
    type View;

    /// What the table is told once, as it is opened.
    type Key;

    // The fact: of all words, and of the views of all seats.
    ghost holds: { List ℕ → List Self.View → Type 0 };

    // The view of the first seat, by what the table is told.
    ghost first: { Self.Key → Self.View };

    // What becomes of a seat's view by a step of that seat: of all words and views before the step, and of
    // its own view.
    ghost learn: { List ℕ → List Self.View → Self.View → Self.View };
}

/// A rule under which a step may also be about a value that no word names, such as the call that the step
/// belongs to.
pub trait LearnAbout<V, T> {
    // What becomes of a seat's view `V` by a step about a `T`.
    ghost learn_about: { T → List ℕ → List V → V → V };
}

/// A rule under which seats are made and joined.
pub trait SeatRule: WordRule {
    // What a seat keeps of its view when a new seat is made of it.
    ghost left: { Self.View → Self.View };

    // What the new seat has of that view.
    ghost right: { Self.View → Self.View };

    // The view of a seat that takes in another's view.
    ghost both: { Self.View → Self.View → Self.View };

    // The view that the other seat leaves behind.
    ghost spent: { Self.View };
}
