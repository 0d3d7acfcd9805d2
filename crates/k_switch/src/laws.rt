// The laws of a switch's table. Each is a function that does nothing, whose contract is the law.
ghost use Rattle.std.specs.Prelude.{true, false, ◌≡◌, ◌≤◌, List, length};
ghost use Rattle.k_ids.specs.declared.state_word.StateWord.{StateWord};
ghost use Rattle.k_locks.specs.declared.locks.Lock.{Lock};
ghost use Rattle.k_locks.specs.declared.steps.Answer.{Answer};
ghost use Rattle.k_locks.specs.Asks.{Response, is_again, suits_response};
ghost use Rattle.k_locks.specs.Hands.{Hand, trimmed};
ghost use Rattle.k_locks.specs.Tables.{IsReleasedInTime, IsRising, Run};
ghost use Rattle.k_switch.specs.declared.switch.SwitchCall.{SwitchCall};
ghost use Rattle.k_switch.specs.declared.switch.SwitchLocation.{SwitchLocation};
ghost use Rattle.k_switch.specs.Switches.{SwitchAt, ask_of, asked_location, at_of, can_ask, hand_of, leads, left_of, location_with, locks_of, moved_location, switch_table};

/// A switch holds at most one lock, asks for it only where it holds none, and holds what it has got and not released.
pub fn a_switch_takes_locks_in_rising_rank()
    ensures { (c : SwitchCall) → IsRising (switch_table c) }
{}

/// A switch makes no more steps up to the release of the ready lock than are left. It makes no exchange.
pub fn left_is_the_most_that_a_switch_makes()
    ensures in_time { (c : SwitchCall) → IsReleasedInTime (switch_table c) }
    ensures most { (c : SwitchCall) (k : Lock) (own : StateWord) (h : Hand) (p : SwitchAt) (answers : List Response) → Run (switch_table c) k own h p answers → length answers ≤ left_of c p k }
{}

/// A switch is where it stands and what it has in hand: that of the lock that it holds. What is left in it once it was asked for
/// its step goes on as the table says.
pub fn a_switch_is_its_location()
    ensures at { (h : Hand) (p : SwitchAt) → at_of (location_with h p) ≡ p }
    ensures hand { (h : Hand) (p : SwitchAt) → can_ask (location_with h p) ≡ true → hand_of (location_with h p) ≡ trimmed (locks_of p) h }
    ensures back { (l : SwitchLocation) → can_ask l ≡ true → location_with (hand_of l) (at_of l) ≡ l }
    ensures onward { (c : SwitchCall) (l : SwitchLocation) (a : Answer) (r : Response) → can_ask l ≡ true → suits_response (ask_of c (at_of l)) r ≡ true → is_again r ≡ false
        → at_of (moved_location c (hand_of (asked_location c l)) (at_of (asked_location c l)) a r) ≡ leads c (hand_of l) (at_of l) r }
{}
