// The laws. Each is a function that does nothing, whose contract is the law.
ghost use Rattle.k_board.specs.Boards.{Board};
ghost use Rattle.k_carrier.specs.Asked.{asked, out_of};
ghost use Rattle.k_carrier.specs.Conditions.{CanAsk, CanTell};
ghost use Rattle.k_conditions.specs.Finished.{FinishedWithin};
ghost use Rattle.k_conditions.specs.Stays.{AllSound};
ghost use Rattle.k_handling.specs.Handling.{IsKernel};
ghost use Rattle.k_ids.specs.StateWords.{IsStateSpelling};
ghost use Rattle.k_locks.specs.declared.locks.WordName.TheVariants as word;
ghost use Rattle.k_model.specs.State.{KernelState};
ghost use Rattle.k_places.specs.Fits.{IsStepWithin};
ghost use Rattle.k_script.specs.Limits.{IsScript};
ghost use Rattle.k_script.specs.Script.{Script};
ghost use Rattle.k_store.specs.Conditions.{CanPerform, IsNumber, found_at};
ghost use Rattle.k_tokens.specs.World as tokens;
ghost use Rattle.k_world.specs.Moves.{answer_by};
ghost use Rattle.k_world.specs.Steps.{moved, running, step_in};
ghost use Rattle.k_world.specs.Worlds.{World, carrier_at};
ghost use Rattle.std.specs.Prelude.{length, ℕ, ◌<◌};

/// A carrier can be asked for its next move: the one before was answered, it is sound, and where it makes a step of the
/// context in its hand, that step can be asked for, and whoever it puts into a list stands in none and has room there.
pub fn a_carrier_can_ask()
    ensures { (script : Script) (w : World) (b : Board) (view : tokens.World) (state : KernelState) (c : ℕ) → IsScript script
        → IsKernel script w b view state → FinishedWithin script w → c < length w.carriers
        → CanAsk script (carrier_at w c) }
{}

/// What comes of its move can be told to it: it is an answer to what it asked for, loaded words have spellings, what is told fits
/// the location, whoever it has to help isn't itself, and a context that comes is sound and is the one that it takes.
pub fn a_carrier_can_be_told()
    ensures { (script : Script) (w : World) (b : Board) (view : tokens.World) (state : KernelState) (c : ℕ) → IsScript script
        → IsKernel script w b view state → FinishedWithin script w → c < length w.carriers
        → CanTell script (asked script (carrier_at w c)) (answer_by w (out_of script (carrier_at w c))) }
{}

/// The shared words and slots can make its move: all numbers are of words and slots that there are, a lock's word spells
/// its owner, and what a free lock guards is at home.
pub fn a_store_can_perform()
    ensures { (script : Script) (w : World) (b : Board) (view : tokens.World) (state : KernelState) (c : ℕ) → IsScript script
        → IsKernel script w b view state → FinishedWithin script w → c < length w.carriers
        → CanPerform w.words w.slots (running (asked script (carrier_at w c)).hand) (out_of script (carrier_at w c)) }
{}

/// The state word of the thread in its hand is a spelling, and is one that there is.
pub fn the_callers_word_is_spelled()
    ensures { (script : Script) (w : World) (b : Board) (view : tokens.World) (state : KernelState) (c : ℕ) → IsScript script
        → IsKernel script w b view state → c < length w.carriers
        → IsNumber (running (asked script (carrier_at w c)).hand)
        × IsStateSpelling (found_at w.words (word.State (running (asked script (carrier_at w c)).hand))) }
{}

/// After its move each context and each carrier is sound as before. That the move's word and entry are of numbers that
/// there are is taken for granted.
pub fn what_is_sound_stays_sound()
    ensures { (script : Script) (w : World) (b : Board) (view : tokens.World) (state : KernelState) (c : ℕ) → IsScript script
        → IsKernel script w b view state → FinishedWithin script w → c < length w.carriers
        → IsStepWithin w (step_in script c w) → AllSound script (moved script c w) }
{}
