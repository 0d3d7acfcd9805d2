// The laws of what holds up a step. Each is a function that does nothing, whose contract is the law.
ghost use Rattle.std.specs.Prelude.{Option, Some, true, ℕ, ◌≡◌, ◌≢◌};
ghost use Rattle.k_board.specs.Boards.{Board, Coming, InDestroy, owner_of};
ghost use Rattle.k_board.specs.Words.{Programs};
ghost use Rattle.k_caller.specs.Activities.{can_ask};
ghost use Rattle.k_caller.specs.Threads.{IsSound, ThreadSeen, asked, begun, ran_of, step_of};
ghost use Rattle.k_caller.specs.declared.activity.Activity.TheVariants as activity;
ghost use Rattle.k_caller.specs.declared.ran.Ran.{Ran};
ghost use Rattle.k_caller.specs.declared.thread.ThreadLocation.TheVariants as location;
ghost use Rattle.k_carrier.specs.Asked.{lock_acquired};
ghost use Rattle.k_carrier.specs.Resumed.{told_in};
ghost use Rattle.k_context.specs.Contexts.{Thread};
ghost use Rattle.k_grants.specs.Views.{name_of};
ghost use Rattle.k_ids.specs.ContextWords.{context_word_of};
ghost use Rattle.k_ids.specs.declared.calls.Reply.{Reply};
ghost use Rattle.k_ids.specs.declared.threads.ThreadId.{ThreadId};
ghost use Rattle.k_locks.specs.Asks as asks;
ghost use Rattle.k_locks.specs.Asks.{want_for};
ghost use Rattle.k_locks.specs.Steps.{is_again};
ghost use Rattle.k_locks.specs.declared.locks.Lock.{Lock};
ghost use Rattle.k_locks.specs.declared.steps.Answer.{Answer};
ghost use Rattle.k_moves.specs.Told.{finding_by};
ghost use Rattle.k_paired.specs.Pairs.{IsPair};
ghost use Rattle.k_places.specs.Answers.{answer_in};
ghost use Rattle.k_places.specs.Memory.{Memory};
ghost use Rattle.k_places.specs.Shows.{Shows, context_in};
ghost use Rattle.k_script.specs.Script.{Script};
ghost use Rattle.k_sections.specs.Situations.{want_at};
ghost use Rattle.k_supported.specs.Supported.{IsRemovable};
ghost use Rattle.k_switch.specs.declared.goal.Goal.{Goal};
ghost use Rattle.k_switching.specs.Claims.{IsAsked};
ghost use Rattle.k_switching.specs.Rules.{word_of};
ghost use Rattle.k_threads.specs.DestroyTable as destroy;
ghost use Rattle.k_threads.specs.declared.destroy.DestroyCall.{DestroyCall};
ghost use Rattle.k_threads.specs.declared.destroy.DestroyLocked.TheVariants as destroy_locked;
ghost use Rattle.k_tokens.specs.World.{OfThread, World};
ghost use Rattle.k_turns.specs.Spelled.{IsSpelled, ask_in};
ghost use Rattle.k_whole.specs.Whole.{HasVictims};
ghost use Rattle.k_work.specs.Near.{IsAlone, IsHeldAbove, IsWaiting};
ghost use Rattle.k_work.specs.Work.{IsMade};

use k_threads::{
    a_create_takes_locks_in_rising_rank, a_destroy_takes_locks_in_rising_rank,
    left_is_the_most_that_a_create_makes, left_is_the_most_that_a_destroy_makes,
};

/// Where a context in a carrier's hand asks for a lock that is owned, its owner holds it, and it ranks above what the carrier
/// helps the context for.
pub fn who_wants_a_lock_is_held_up()
    ensures { (g : Programs) (b : Board) (w : World) (c i owner : ℕ) (l : Lock) → IsPair g b w → IsAsked w c (OfThread i)
        → want_at (b.context i).own (b.context i).at ≡ Some (want_for l) → owner_of b l ≡ Some owner
        → IsHeldAbove w c (record { context = name_of b.size owner; lock = Some l }) }
{
    a_create_takes_locks_in_rising_rank();
    a_destroy_takes_locks_in_rising_rank();
    left_is_the_most_that_a_create_makes();
    left_is_the_most_that_a_destroy_makes();
}

/// A step that the raw world has to make again waits for what is held, and this ranks above what the carrier helps for. That is
/// said of a thread's context which the world shows on a good board, while no other carrier has a context in hand. A thread that
/// works has work left; and one above the goal is told of only where a location puts a thread into a ready list. The first step
/// of a call removes no context.
pub fn who_waits_is_held_up()
    ensures waits { (script : Script) (g : Programs) (m : Memory) (b : Board) (w : World) (c n size : ℕ) (t : ThreadSeen)
        (goal : Option Goal) (r : Ran) → Shows script m b → IsPair g b w → HasVictims w → IsAlone w c
        → IsAsked w c (OfThread n) → context_in m.context m.slot m.hand n ≡ Some (Thread t)
        → ((b.context n).at ≡ Coming → ⊥) → size ≡ b.size → IsSpelled script.table (ask_in t.id t.own t.activity)
        → ((id : ThreadId) → ask_in t.id t.own t.activity ≡ asks.Remove id
        → word_of w (OfThread id.number) ≡ context_word_of (m.context id.number))
        → is_again (answer_in m (step_of t)) ≡ true
        → IsWaiting w c (finding_by size goal (lock_acquired (step_of t)) (told_in (answer_in m (step_of t))) r) }
    ensures made { (script : Script) (m : Memory) (b : Board) (n size : ℕ) (t : ThreadSeen) (goal : Option Goal)
        (l : Option Lock) (x : Answer) → Shows script m b → context_in m.context m.slot m.hand n ≡ Some (Thread t)
        → ((b.context n).at ≡ Coming → ⊥) → IsSound script t → can_ask t.activity ≡ true
        → IsMade b n (finding_by size goal l (told_in x) (ran_of (asked t) x)) }
    ensures begun { (script : Script) (t : ThreadSeen) (last : Option Reply) (id : ThreadId)
        → t.activity ≡ activity.Alone (location.Between last)
        → ask_in (begun script t).id (begun script t).own (begun script t).activity ≢ asks.Remove id }
{
    a_create_takes_locks_in_rising_rank();
    a_destroy_takes_locks_in_rising_rank();
    left_is_the_most_that_a_create_makes();
    left_is_the_most_that_a_destroy_makes();
}

/// Where a context in a carrier's hand removes another context, and no other carrier has one in hand, that one can be removed, or
/// it holds a lock, and ranks above what the carrier helps for.
pub fn who_removes_a_context_is_held_up()
    ensures { (g : Programs) (b : Board) (w : World) (c i : ℕ) (call : DestroyCall) → IsPair g b w → HasVictims w
        → IsAlone w c → IsAsked w c (OfThread i)
        → (b.context i).at ≡ InDestroy call (destroy.Locked destroy_locked.RemoveContext) → IsRemovable w c call.who }
{}
