// The laws of waits in a world with one carrier. Each is a function that does nothing, whose contract is the law.
ghost use Rattle.std.specs.Prelude.{length, List, Some, ℕ, ◌++◌, ◌<◌, ◌≡◌, ◌≢◌, ◌≤◌, ◌∷◌, [], Bool, Option};
ghost use Rattle.k_aligned.specs.Aligned.{AreAligned};
ghost use Rattle.k_board.specs.Boards.{Board};
ghost use Rattle.k_board.specs.Facts.{AllSay};
ghost use Rattle.k_board.specs.Places.{facts_of};
ghost use Rattle.k_board.specs.Turns.{Turn};
ghost use Rattle.k_board.specs.Words.{Programs};
ghost use Rattle.k_bound.specs.Waits.{allowed, OwnerFound, mark_begun, mark_counted, mark_linked};
ghost use Rattle.k_bound.specs.Waits as bound;
ghost use Rattle.k_carrier.specs.declared.marks.Link.{Link};
ghost use Rattle.k_carrier.specs.declared.marks.WaitMark.{WaitMark};
ghost use Rattle.k_carrier.specs.declared.marks.Want as marked;
ghost use Rattle.k_carrier.specs.Running.{left_for};
ghost use Rattle.k_carrier.specs.Seen.{HandSeen};
ghost use Rattle.k_context.specs.Contexts.{begun, ContextSeen, step_of};
ghost use Rattle.k_ids.specs.declared.state_word.StateWord.{StateWord};
ghost use Rattle.k_ids.specs.declared.histories.Entry.{Entry};
ghost use Rattle.k_invariant.specs.Invariant.{Holds};
ghost use Rattle.k_joint.specs.Ready.{IsReady};
ghost use Rattle.k_locks.specs.Asks.{Want};
ghost use Rattle.k_model.specs.State.{KernelState};
ghost use Rattle.k_places.specs.Contexts.{HoldsGoods, ShowsContext};
ghost use Rattle.k_places.specs.Memory.{Memory};
ghost use Rattle.k_places.specs.Shows.{AreInPlace, Shows};
ghost use Rattle.k_plays.specs.Scripts.{ranged_programs};
ghost use Rattle.k_script.specs.Limits.{IsScript};
ghost use Rattle.k_script.specs.Script.{Script};
ghost use Rattle.k_sections.specs.Situations.{holder_of, left_of, want_at};
ghost use Rattle.k_sections.specs.Stepping.{board_after};
ghost use Rattle.k_switch.specs.declared.switch.SwitchCall.{SwitchCall};
ghost use Rattle.k_tokens.specs.World as tokens;
ghost use Rattle.k_turns.specs.Sections.{section_maps};
ghost use Rattle.k_waits.specs.Steps.{Becomes, found_on, IsInside, StepsTo};
ghost use Rattle.k_waits.specs.Waits.{WaitsHold};
ghost use Rattle.k_waits.specs.Words.{found_in_link, ShowsMark, want_in};
ghost use Rattle.k_whole.specs.Whole.{WholeHolds};
ghost use Rattle.k_world.specs.Boot.{booted};
ghost use Rattle.k_world.specs.Lawful.{allowed_by, links_of};
ghost use Rattle.k_world.specs.Marks.{mark_at, mark_of, more_allowed, used_once};
ghost use Rattle.k_world.specs.Owed.{CountsOwed, IsBounded};
ghost use Rattle.k_world.specs.Steps.{parked, sliced, started};
ghost use Rattle.k_world.specs.Worlds.{World};

use k_threads::{
    a_create_takes_locks_in_rising_rank, a_destroy_takes_locks_in_rising_rank,
    left_is_the_most_that_a_create_makes, left_is_the_most_that_a_destroy_makes,
};

/// In the world in which the kernel begins to run a script with one carrier no mark stands, and all holds of its waits.
pub fn no_wait_stands_at_the_start()
    ensures { (script : Script) → WaitsHold script (booted script 1) }
{}

/// A start, the end of a slice and a park keep it. A mark that they break stands until the next step.
pub fn what_comes_from_outside_keeps_the_waits()
    ensures started { (script : Script) (w : World) (number : ℕ) → WaitsHold script w →
        WaitsHold script (started 0 number w) }
    ensures sliced { (script : Script) (w : World) → WaitsHold script w → WaitsHold script (sliced 0 w) }
    ensures parked { (script : Script) (w : World) → WaitsHold script w → WaitsHold script (parked 0 w) }
{}

/// Where the waits hold, each wait that was got took no more steps than its links allow; and they allow the sum of
/// what they have left, up to the end of the count.
pub fn each_wait_that_is_got_is_bounded()
    ensures bounded { (script : Script) (w : World) (k : ℕ) → WaitsHold script w → k < length w.waits.marks →
        IsBounded (mark_at w.waits.marks k) }
    ensures allowed { (script : Script) (w : World) (k : ℕ) → WaitsHold script w → k < length w.waits.marks →
        (mark_at w.waits.marks k).allowed ≡ allowed_by (links_of k w.waits.links) }
{}

/// The log shows a mark of the bound as it begins with a link, with one link more, and with one step more. What it
/// has counted is then within what its links allow.
pub fn the_log_shows_a_mark()
    ensures begun { (table k first : ℕ) (v : ContextSeen) (wanted : marked.Want) (links : List Link) (link : Link)
        (b : bound.Link) → link.mark ≡ k → links_of k links ≡ [] → found_in_link table link ≡ b.found → link.left ≡ b.left →
        ShowsMark table k (mark_of v wanted first link.left) (links ++ link ∷ []) (mark_begun b) }
    ensures linked { (table k : ℕ) (m : WaitMark) (links : List Link) (mark : bound.WaitMark) (link : Link) (b : bound.Link) →
        ShowsMark table k m links mark → link.mark ≡ k → found_in_link table link ≡ b.found → link.left ≡ b.left →
        ShowsMark table k (more_allowed link.left m) (links ++ link ∷ []) (mark_linked b mark) }
    ensures counted { (table k : ℕ) (m : WaitMark) (links : List Link) (mark : bound.WaitMark) (by_owner : Bool)
        (help : OwnerFound) → ShowsMark table k m links mark →
        ShowsMark table k (used_once m) links (mark_counted by_owner help mark) }
    ensures within { (table k : ℕ) (m : WaitMark) (links : List Link) (mark : bound.WaitMark) → ShowsMark table k m links mark →
        mark.used ≤ allowed mark.links → m.used ≤ m.allowed }
{}

/// A step that is held up leaves the board as it is.
pub fn a_step_that_is_held_up_leaves_the_board()
    ensures { (g : Programs) (b : Board) (i owner : ℕ) (calls : Board → ℕ → SwitchCall) (want : Want) →
        want_at (b.context i).own (b.context i).at ≡ Some want → holder_of b want ≡ Some owner →
        board_after g calls b i (b.context i).at ≡ b }
{}

/// The steps that a link has left are those that its owner's context publishes on the board.
pub fn a_link_has_what_its_owner_publishes()
    ensures { (g : Programs) (b : Board) (i : ℕ) (w : StateWord) (v : ContextSeen) (wanted : marked.Want)
        (removed : ℕ → Option (Option Want)) → ShowsContext w i (Some v) (b.context i) → HoldsGoods b v (b.context i).at →
        AllSay g b i (b.context i) (facts_of (b.context i).at) →
        left_for v wanted ≡ left_of (record { board = b; removed = removed }) i (want_in wanted) }
{}

/// A step of a context that is in a section, or in a switch, is one turn of the board: the context's next step there.
pub fn a_step_in_a_section_is_one_turn()
    ensures { (script : Script) (m : Memory) (b : Board) (c : ℕ) (h : HandSeen) → IsScript script → Shows script m b →
        m.hand c ≡ Some h → IsReady script b h.context h.value → IsInside (b.context h.context).at → Holds script b →
        StepsTo script (section_maps script m c h.context (begun script h.value)) b h.context }
{
    a_create_takes_locks_in_rising_rank();
    a_destroy_takes_locks_in_rising_rank();
    left_is_the_most_that_a_create_makes();
    left_is_the_most_that_a_destroy_makes();
}

/// A step leaves each other context as it was, but one that is placed and one that is removed; and no number's version falls.
pub fn a_step_leaves_other_contexts()
    ensures contexts { (script : Script) (m : Memory) (c i : ℕ) (v : ContextSeen) →
        AreInPlace m.context m.slot m.hand →
        AreInPlace (section_maps script m c i v).context (section_maps script m c i v).slot (section_maps script m c i v).hand →
        (j : ℕ) → j ≢ i → Becomes script (found_on m j) (step_of v) j (found_on (section_maps script m c i v) j) }
    ensures versions { (script : Script) → IsScript script → (b after : Board) (i t : ℕ) → Holds script b →
        Turn (ranged_programs script) b i after → (b.seen t).word.version ≤ (after.seen t).word.version }
{}

/// Where the waits hold, a step that is counted in a mark is made by an owner of a link of that mark, which holds
/// what the link is for.
pub fn each_step_that_is_counted_is_owed()
    ensures { (script : Script) (w : World) (b : Board) (view : tokens.World) (entries : List Entry) (state : KernelState) →
        AreAligned script w b view → WholeHolds script b view entries state → WaitsHold script w → CountsOwed script 0 w }
{}
