// What stands in a slot.
ghost use Rattle.std.specs.Prelude.{◌≡◌};
ghost use Rattle.k_script.specs.Script as scripts;
ghost use Rattle.k_carrier.specs.Answers.{IsAnswerPlaced, answer_in};
ghost use Rattle.k_world.specs.Moves.{took};
ghost use Rattle.k_store.specs.Stores.{IsSlotPlaced, slot_in};

use k_carrier::SeenAnswer;
use k_context::Context;
use k_locks::Goods;
use std::mem;

/// What stands in a slot.
#[derive(Drop)]
pub enum Slot {
    /// What a lock guards, while nobody holds it.
    Guarded(Goods),
    /// A context that no carrier has in hand.
    Resting(Context),
    /// Nothing: it is in a hand, or there is none.
    Away,
}

/// What comes of a take that was won, by what was in the slot. `found` is what the word was.
pub(crate) fn took(found: u64, slot: Slot) -> SeenAnswer
    ensures answer { (script : scripts.Script) → answer_in script result ≡ took found (slot_in script slot) }
    ensures placed { (script : scripts.Script) → IsSlotPlaced script slot → IsAnswerPlaced script result }
{
    match slot {
        Slot::Resting(value) => SeenAnswer::Took(value),
        other => {
            mem::drop(other);
            SeenAnswer::TakeLost(found)
        }
    }
}
