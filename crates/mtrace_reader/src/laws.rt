//! What holds of every line and of every trace, whoever reads it.
ghost use Rattle.std.specs.Prelude.{◌≡◌, ◌↔◌, ℕ, List};
ghost use Rattle.line_text.specs.declared.meaning.Meaning.{Meaning};
ghost use Rattle.mtrace_reader.specs.declared.trace.Operation.{Operation};
ghost use Rattle.mtrace_reader.specs.Line.{Means, meaning_of};

/// Each line means one thing, and that is its meaning as it is computed.
pub fn each_line_means_one_thing()
    ensures { (line : List ℕ) (meaning : Meaning Operation) → Means line meaning ↔ (meaning_of line ≡ meaning) }
{}
