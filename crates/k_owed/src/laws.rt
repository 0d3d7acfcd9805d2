// The laws of what is owed. Each is a function that does nothing, whose contract is the law.
ghost use Rattle.k_board.specs.Boards.{Board, InSwitch};
ghost use Rattle.k_board.specs.Steps.{Answers, switch_board};
ghost use Rattle.k_board.specs.Turns.{Turn, is_going};
ghost use Rattle.k_board.specs.Words.{Programs};
ghost use Rattle.k_good.specs.Ranges.{is_threads};
ghost use Rattle.k_grants.specs.Granted.{is_again};
ghost use Rattle.k_locks.specs.Asks as asks;
ghost use Rattle.k_locks.specs.Asks.{Response};
ghost use Rattle.k_owed.specs.Owed.{HasStepsLeft, may_begin, owed, parts_of, pushes_at, steps_owed};
ghost use Rattle.k_owed.specs.Works.{CountsWork, work_ahead};
ghost use Rattle.k_plays.specs.Scripts.{ranged_programs};
ghost use Rattle.k_points.specs.Points.{turn_point};
ghost use Rattle.k_queues.specs.Queues.{IsProper};
ghost use Rattle.k_schedule.specs.Parts.{Falls};
ghost use Rattle.k_script.specs.Plays.{Position};
ghost use Rattle.k_script.specs.Script.{Script};
ghost use Rattle.k_switch.specs.Switches as switch;
ghost use Rattle.k_switch.specs.Switches.{SwitchAt};
ghost use Rattle.k_switch.specs.declared.switch.SwitchCall.{SwitchCall};
ghost use Rattle.std.specs.Prelude.{None, false, true, ℕ, ◌+◌, ◌<◌, ◌≡◌, ◌≤◌};

/// A program has as much work before its next call as the operations with which it goes on say.
pub fn programs_count_their_work()
    ensures { (script : Script) → CountsWork (ranged_programs script) work_ahead }
{}

/// A turn of a thread's context that makes its step, and has no linearization point, lowers what is owed. A push pays for the
/// switch that may begin.
pub fn a_thread_turn_lowers_what_is_owed()
    ensures { (g : Programs) (work : Position → ℕ) (b b' : Board) (i count : ℕ) → CountsWork g work → IsProper g b
        → HasStepsLeft b i → i < count → is_threads (b.context i).at ≡ true → (t : Turn g b i b')
        → turn_point g b i b' t ≡ None → is_again g b i b' t ≡ false → (room near near' switches switches' : ℕ)
        → switches' ≤ switches + may_begin (pushes_at (b.context i).at)
        → Falls (parts_of work b count room switches near) (parts_of work b' count room switches' near') }
{}

/// So does a turn of a switch.
pub fn a_switch_turn_lowers_what_is_owed()
    ensures { (g : Programs) (work : Position → ℕ) (b : Board) (i count : ℕ) (c : SwitchCall) (p : SwitchAt) (r : Response)
        → IsProper g b → i < count → (b.context i).at ≡ InSwitch c p → is_going p ≡ true → Answers b (switch.ask_of c p) r
        → asks.is_again r ≡ false → (room near near' switches : ℕ)
        → Falls (parts_of work b count room switches near)
        (parts_of work (switch_board b i (b.context i) c p r) count room switches near') }
{}

/// Where the same step has to be made again, since a lock is owned or a context can't be removed yet, nothing changes.
pub fn who_waits_for_a_lock_owes_the_same()
    ensures owed { (g : Programs) (b b' : Board) (i count : ℕ) (t : Turn g b i b') → is_again g b i b' t ≡ true
        → owed b' count ≡ owed b count }
    ensures steps { (g : Programs) (work : Position → ℕ) (b b' : Board) (i count : ℕ) (t : Turn g b i b')
        → is_again g b i b' t ≡ true → steps_owed work b' count ≡ steps_owed work b count }
{}
