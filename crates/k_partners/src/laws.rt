// The laws of partners. Each is a function that does nothing, whose contract is the law.
ghost use Rattle.std.specs.Prelude.{None, Option, Some, false, ℕ, ◌≡◌, ◌≢◌};
ghost use Rattle.k_board.specs.Boards.{Board, InCreate, InDestroy, InReceive, id_at};
ghost use Rattle.k_board.specs.Boots.{Booted};
ghost use Rattle.k_board.specs.Places.{PlacesHold};
ghost use Rattle.k_board.specs.Turns.{Turn};
ghost use Rattle.k_board.specs.Words.{Programs};
ghost use Rattle.k_good.specs.Good.{IsGood, QueuesTell};
ghost use Rattle.k_good.specs.Ranges.{IsWithin};
ghost use Rattle.k_ids.specs.declared.threads.ThreadId.{ThreadId};
ghost use Rattle.k_ipc.specs.ReceiveTable as receive;
ghost use Rattle.k_ipc.specs.declared.receive.ReceiveCall.{ReceiveCall};
ghost use Rattle.k_ipc.specs.declared.receive.ReceiveLocked.TheVariants as receives;
ghost use Rattle.k_locks.specs.Shown.{is_dead};
ghost use Rattle.k_partners.specs.Partners.{IsThere, Looks, PartnersHold, ReceivesFrom};
ghost use Rattle.k_threads.specs.CreateTable as create;
ghost use Rattle.k_threads.specs.DestroyTable as destroy;
ghost use Rattle.k_threads.specs.declared.create.CreateCall.{CreateCall};
ghost use Rattle.k_threads.specs.declared.create.CreateLocked.TheVariants as creates;
ghost use Rattle.k_threads.specs.declared.destroy.DestroyCall.{DestroyCall};
ghost use Rattle.k_threads.specs.declared.destroy.DestroyLocked.TheVariants as locked;
ghost use Rattle.k_threads.specs.declared.destroy.DestroyRelease.TheVariants as release;

/// When the kernel begins, nobody waits.
pub fn partners_are_there_at_the_start()
    ensures { (g : Programs) (b : Board) → ((n : ℕ) → Booted g b n) → PartnersHold b }
{}

/// After any turn of any context, whoever waits to receive from one thread waits for another that is there, or the wait is
/// about to end: the one that waits looks for the other at this moment, or the destroy that killed the other is still to visit
/// the one that waits.
pub fn partners_stay_there()
    ensures { (g : Programs) (b b' : Board) (i : ℕ) → IsGood g b → IsWithin b → QueuesTell b i → PartnersHold b → Turn g b i b' →
        PartnersHold b' }
{}

/// While no thread is made or destroyed, whoever waits to receive from one thread waits for one that is there, unless it looks
/// for it at this moment.
pub fn nobody_waits_for_a_thread_that_is_no_more()
    ensures { (b : Board) (t : ℕ) (from : ThreadId) → PartnersHold b → b.table ≡ None → (Looks from (b.context t).at → ⊥) →
        ReceivesFrom b t from → IsThere b from }
{}

/// A destroy that is about to release the table lock has left nobody waiting for a message of its victim, but who looks for it.
pub fn a_destroy_leaves_nobody_waiting()
    ensures { (g : Programs) (b : Board) (i t : ℕ) (c : DestroyCall) → IsGood g b → PartnersHold b →
        (b.context i).at ≡ InDestroy c (destroy.Locked (locked.Release release.Killed)) → ReceivesFrom b t c.who →
        Looks c.who (b.context t).at }
{}

/// Where a thread is about to be made, nobody waits for its message, but who looks for it at this moment.
pub fn nobody_waits_for_a_thread_to_come()
    ensures { (g : Programs) (b : Board) (i t : ℕ) (c : CreateCall) (id : ThreadId) → PlacesHold g b → PartnersHold b →
        (b.context i).at ≡ InCreate c (create.Locked (creates.CommitCreate id)) → ReceivesFrom b t id →
        Looks id (b.context t).at }
{}

/// Whoever looks for a thread that isn't there finds so in its next step, and after the one after that it waits no more. The
/// steps of others leave it where it is, as they leave the context of each thread that is there.
pub fn who_looks_in_vain_waits_no_more()
    ensures looks { (g : Programs) (b b' : Board) (t : ℕ) (c : ReceiveCall) (from : ThreadId) → Turn g b t b' →
        (IsThere b from → ⊥) → (b.context t).at ≡ InReceive c (receive.Locked (receives.LoadPartner from)) →
        (b'.context t).at ≡ InReceive c (receive.Locked (receives.CommitGone from)) }
    ensures others { (g : Programs) (b b' : Board) (i t : ℕ) → PlacesHold g b → Turn g b i b' → t ≢ i →
        is_dead (b.seen t).word ≡ false → b'.context t ≡ b.context t }
    ensures ends { (g : Programs) (b b' : Board) (t : ℕ) (c : ReceiveCall) (from : ThreadId) → PlacesHold g b → Turn g b t b' →
        (b.context t).at ≡ InReceive c (receive.Locked (receives.CommitGone from)) → (other : ThreadId) →
        ReceivesFrom b' t other → ⊥ }
{}

/// Nobody waits for its own message. Whoever waits for one of another thread of its own number looks for it.
pub fn nobody_waits_for_its_own_number()
    ensures own { (b : Board) (t : ℕ) → PartnersHold b → ReceivesFrom b t (id_at b t) → ⊥ }
    ensures number { (g : Programs) (b : Board) (t : ℕ) (from : ThreadId) → IsGood g b → PartnersHold b → ReceivesFrom b t from →
        from.number ≡ t → Looks from (b.context t).at }
{}
