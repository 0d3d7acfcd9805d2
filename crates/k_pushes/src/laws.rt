// The laws of pushes. Each is a function that does nothing, whose contract is the law.
ghost use Rattle.k_board.specs.Boards.{Board};
ghost use Rattle.k_board.specs.Boots.{Booted};
ghost use Rattle.k_board.specs.Turns.{Turn};
ghost use Rattle.k_board.specs.Words.{Programs};
ghost use Rattle.k_good.specs.Good.{QueuesTell};
ghost use Rattle.k_grants.specs.Granted.{IsFreeToRemove, MayTurn};
ghost use Rattle.k_grants.specs.Pushes.{PushesHold};
ghost use Rattle.k_pushes.specs.Calm.{IsCalm, IsCarriers};
ghost use Rattle.k_tokens.specs.World.{World};
ghost use Rattle.std.specs.Prelude.{ℕ};

/// What locations say of the threads that they push holds on the board on which the kernel begins.
pub fn pushes_hold_at_the_start()
    ensures { (g : Programs) (b : Board) → ((n : ℕ) → Booted g b n) → PushesHold b }
{}

/// It holds after each turn of a thread's context that a carrier runs, in a good world that agrees with a good board.
pub fn each_turn_keeps_pushes()
    ensures { (g : Programs) (b b' : Board) (w : World) (c i : ℕ) → MayTurn g b w c i → QueuesTell b i
        → IsFreeToRemove b w i b' → Turn g b i b' → PushesHold b' }
{}

/// And after each turn by which a thread is woken or a switch goes on.
pub fn a_carriers_turn_keeps_pushes()
    ensures { (g : Programs) (b b' : Board) (i : ℕ) → PushesHold b → IsCarriers (b.context i).at → Turn g b i b'
        → PushesHold b' }
{}

/// The thread whose context a carrier runs is in no push.
pub fn who_is_pushed_makes_no_step()
    ensures { (g : Programs) (b : Board) (w : World) (c i : ℕ) → MayTurn g b w c i → IsCalm b i }
{}
