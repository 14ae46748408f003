//! What holds of every line and of every script, whoever reads it.
ghost use Rattle.std.specs.Prelude.{◌≡◌, ◌<◌, ◌↔◌, ℕ, Bool, List, Contains};
ghost use Rattle.pool_model.specs.declared.entry.Entry.{Entry};
ghost use Rattle.store_script.specs.declared.command.Command.{Command};
ghost use Rattle.store_script.specs.declared.command.StoreScript.{StoreScript};
ghost use Rattle.line_text.specs.declared.meaning.Meaning.{Meaning};
ghost use Rattle.store_script.specs.declared.line.Request.{Request};
ghost use Rattle.store_script.specs.Fit.{Fits};
ghost use Rattle.store_script.specs.Line.{Means, meaning_of};
ghost use Rattle.store_script.specs.Script.{IsWellFormed, key_of, slot_of};

/// Each line means one thing, and that is its meaning as it is computed.
pub fn each_line_means_one_thing()
    ensures { (line : List ℕ) (meaning : Meaning Request) → Means line meaning ↔ (meaning_of line ≡ meaning) }
{}

/// Each slot of a well-formed script is below the number of its slots.
pub fn slots_are_below_their_number()
    ensures { (script : StoreScript) (command : Command) → IsWellFormed script
        → Contains script.commands command → slot_of command < script.slots }
{}

/// Each slot of a well-formed script is of one key.
pub fn each_slot_is_of_one_key()
    ensures { (script : StoreScript) (one other : Command) → IsWellFormed script
        → Contains script.commands one → Contains script.commands other
        → slot_of one ≡ slot_of other → key_of one ≡ key_of other }
{}

/// The calls of a process that fit a script determine which of its puts of absent keys were refused.
pub fn calls_determine_refusals()
    ensures { (i : ℕ) (script : StoreScript) (one other : List Bool) (entries : List Entry) → Fits i script one entries
        → Fits i script other entries → one ≡ other }
{}
