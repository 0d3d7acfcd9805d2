// The laws of histories that follow a script. Each is a function that does nothing, whose contract is the law.
ghost use Rattle.k_ids.specs.declared.histories.Entry.{Entry};
ghost use Rattle.k_ids.specs.declared.threads.ThreadId.{ThreadId};
ghost use Rattle.k_model.specs.Answered.{IsAnswered, reply_to};
ghost use Rattle.k_model.specs.History.{IsFinished, IsReplay};
ghost use Rattle.k_model.specs.Ranges.{IsRanged};
ghost use Rattle.k_model.specs.Sound.{IsSound};
ghost use Rattle.k_model.specs.State.{id_of, is_dead, KernelState};
ghost use Rattle.k_positions.specs.Positions.{positions_after, program_at};
ghost use Rattle.k_room.specs.Histories.{ComesNext, Follows, LeadsTo};
ghost use Rattle.k_room.specs.Room.{to_come};
ghost use Rattle.k_script.specs.Limits.{IsScript};
ghost use Rattle.k_script.specs.Plays.{first_id, IsHistory, IsWithin, opened_for, phases_left};
ghost use Rattle.k_script.specs.Plays.{Position, program_of, start_of, TellsInRange};
ghost use Rattle.k_script.specs.Script.{Script};
ghost use Rattle.k_script.specs.Weight.{phases_of};
ghost use Rattle.std.specs.Prelude.{is_some, length, List, Some, false, true, ℕ, [], ◌*◌, ◌+◌, ◌++◌, ◌<◌, ◌≡◌, ◌≤◌, ◌∷◌};

/// At first no call was made, and each thread of the script stands at the start of its program. A history follows on with an
/// entry that may come next, whatever the order of the threads. Each front of it follows its script too, and it leaves one
/// state. A finished one is one of the script's histories.
pub fn a_history_follows_on()
    ensures first { (script : Script) (at : ℕ → Position) → IsScript script →
        ((t : ℕ) → t < length script.threads → at t ≡ start_of script (program_at script t) (first_id t)) →
        LeadsTo script [] (opened_for script) at }
    ensures more { (script : Script) (entries : List Entry) (k new : KernelState) (at : ℕ → Position) (e : Entry) →
        IsScript script → LeadsTo script entries k at → ComesNext script k at e new →
        LeadsTo script (entries ++ e ∷ []) new (positions_after script k at e) }
    ensures fronts { (script : Script) (front behind : List Entry) (end : KernelState) → IsScript script →
        Follows script (front ++ behind) end → (k : KernelState) × Follows script front k × IsReplay k behind end }
    ensures one { (script : Script) (entries : List Entry) (k other : KernelState) →
        Follows script entries k → Follows script entries other → k ≡ other }
    ensures ends { (script : Script) (entries : List Entry) (k : KernelState) →
        Follows script entries k → IsFinished k → IsHistory script entries k }
{}

/// The state that such a history leaves is as large as the script's table, and good: its lists are sound, its replies in order,
/// its versions in range.
pub fn a_followed_history_is_good()
    ensures size { (script : Script) (entries : List Entry) (k : KernelState) → IsScript script →
        Follows script entries k → k.size ≡ script.table }
    ensures sound { (script : Script) (entries : List Entry) (k : KernelState) → IsScript script →
        Follows script entries k → IsSound k }
    ensures answered { (script : Script) (entries : List Entry) (k : KernelState) → IsScript script →
        Follows script entries k → IsAnswered k }
    ensures ranged { (script : Script) (entries : List Entry) (k : KernelState) → IsScript script →
        Follows script entries k → IsRanged k }
{}

/// A legal history that plays its script has twice the script's phases of entries at most, whatever made it. With what its
/// threads may still do it comes to no more either, and each entry takes of that. So there is room for each event that may come
/// next. And no thread has made more calls than there are entries, or, if it is there, than the script has phases.
pub fn a_history_takes_its_room()
    ensures whole { (script : Script) (entries : List Entry) (k : KernelState) → IsScript script →
        Follows script entries k → length entries ≤ 2 * phases_of script }
    ensures left { (script : Script) (entries : List Entry) (k : KernelState) (at : ℕ → Position) → IsScript script →
        LeadsTo script entries k at → length entries + to_come script k at ≤ 2 * phases_of script }
    ensures falls { (script : Script) (entries : List Entry) (k new : KernelState) (at : ℕ → Position) (e : Entry) →
        IsScript script → LeadsTo script entries k at → ComesNext script k at e new →
        to_come script new (positions_after script k at e) + 1 ≤ to_come script k at }
    ensures next { (script : Script) (entries : List Entry) (k new : KernelState) (at : ℕ → Position) (e : Entry) →
        IsScript script → LeadsTo script entries k at → ComesNext script k at e new → length entries < 2 * phases_of script }
    ensures serials { (script : Script) (entries : List Entry) (k : KernelState) (at : ℕ → Position) (t : ℕ) → IsScript script →
        LeadsTo script entries k at → is_dead (k.place t).status ≡ false →
        (k.place t).serial + phases_left script (at t) ≤ phases_of script }
    ensures calls { (script : Script) (entries : List Entry) (k : KernelState) (at : ℕ → Position) (t program : ℕ) →
        IsScript script → LeadsTo script entries k at → program_of script entries (id_of k t) ≡ Some program →
        (k.place t).serial ≤ length entries }
{}

/// Each thread that is there has a program. Where a history leaves a program, of a thread that was destroyed too, its registers
/// name threads of the table, and what is left of it are operations of the script; for all replies so far name such threads.
pub fn a_program_stays_within_its_script()
    ensures present { (script : Script) (entries : List Entry) (k : KernelState) (t : ℕ) → IsScript script →
        Follows script entries k → is_dead (k.place t).status ≡ false → is_some (program_of script entries (id_of k t)) ≡ true }
    ensures within { (script : Script) (entries : List Entry) (k : KernelState) (at : ℕ → Position) (t program : ℕ) →
        IsScript script → LeadsTo script entries k at → program_of script entries (id_of k t) ≡ Some program →
        IsWithin script (at t) }
    ensures told { (script : Script) (entries : List Entry) (k : KernelState) (id : ThreadId) (serial : ℕ) → IsScript script →
        Follows script entries k → TellsInRange script.table (reply_to k.replies id serial) }
{}
