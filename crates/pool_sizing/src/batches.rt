// How many batches are enough.
ghost use Rattle.std.specs.Prelude.{◌≡◌, ℕ, ◌+◌, ◌*◌, ◌<◌, ◌≤◌, ◌↔◌, IfNone, IfSome};
ghost use Rattle.pool_model.specs.Limits.{greatest_slack};
ghost use Rattle.word_layout.specs.Sizes.{IsShape, sizes, limits_of};
ghost use Rattle.pool_sizing.specs.Enough.{AreEnough, AreLeastEnough};

use word_layout::Shape;

/// The least number of batches with which a pool of so many processes and this quantum refuses no allocate, as long
/// as at most `live` blocks are held together, by whichever processes.
///
/// `None` where no pool has enough: with no process or more than 32, with a quantum other than 1, 2, 4, 8 and 16, and
/// where more than 2^22 blocks would be needed.
pub fn enough_batches(processes: u32, quantum: u32, live: u32) -> Option<u32>
    ensures least { IfSome result (AreLeastEnough processes quantum live) }
    ensures none { IfNone result ((batches : ℕ) → AreEnough processes quantum live batches → ⊥) }
{
    let smallest = shape_of(processes, 2 * u64::from(processes), quantum)?;
    let shape = shape_of(processes, batches_above(&smallest, live), quantum)?;
    Some(shape.batches())
}

/// The shape of these numbers, without data words. `None` where they are those of no shape.
#[tactic(auto, using(crate::proofs::Counts::few_batches, crate::proofs::Counts::no_shape))]
fn shape_of(processes: u32, batches: u64, quantum: u32) -> Option<Shape>
    ensures shape { IfSome result IsShape }
    ensures sizes { IfSome result (λ shape. shape ≡ sizes processes batches 0 quantum shape.length) }
    ensures none { IfNone result ((length : ℕ) → IsShape (sizes processes batches 0 quantum length) → ⊥) }
{
    let batches = u32::try_from(batches).ok()?;
    Shape::with_quantum(processes, batches, 0, quantum).ok()
}

/// The least number of batches of this shape's length that have more blocks than its slack and `live` together.
fn batches_above(shape: &Shape, live: u32) -> u64
    ensures { (batches : ℕ) → (greatest_slack (limits_of shape.now) + live < batches * shape.now.length) ↔ (result ≤ batches) }
{
    (u64::from(shape.slack()) + u64::from(live)) / u64::from(shape.length()) + 1
}
