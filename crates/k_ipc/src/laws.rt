// What holds of the tables of a send and of a receive. Each law is a function that does nothing, whose contract is the law.
//
// A step is answered by what it can be answered by, and anything may happen between two steps: the answers are any.
ghost use Rattle.std.specs.Prelude.{◌≡◌, true};
ghost use Rattle.k_ids.specs.declared.state_word.StateWord.{StateWord};
ghost use Rattle.k_locks.specs.Asks.{hand_asked};
ghost use Rattle.k_locks.specs.Hands.{Hand, trimmed};
ghost use Rattle.k_locks.specs.Tables.{IsReleasedInTime, IsRising};
ghost use Rattle.k_ipc.specs.declared.receive.ReceiveCall.{ReceiveCall};
ghost use Rattle.k_ipc.specs.declared.receive.ReceiveLocation.{ReceiveLocation};
ghost use Rattle.k_ipc.specs.declared.send.SendCall.{SendCall};
ghost use Rattle.k_ipc.specs.declared.send.SendLocation.{SendLocation};
ghost use Rattle.k_ipc.specs.ReceiveTable as receive;
ghost use Rattle.k_ipc.specs.SendTable as send;

/// A send holds one lock of each rank at most, asks only for a lock of a higher rank than those that it holds, and holds
/// what it got and hasn't released.
pub fn a_send_takes_locks_in_rising_rank()
    ensures { (c : SendCall) → IsRising (send.send_table c) }
{}

/// The same of a receive and of a pick.
pub fn a_receive_takes_locks_in_rising_rank()
    ensures { (c : ReceiveCall) → IsRising (receive.receive_table c) }
{}

/// From a location on, a send makes at most as many steps until it has released the receiver's lock, or the ready lock, as
/// `left` says, and two more for each lost exchange that `left` doesn't count.
pub fn a_send_releases_in_time()
    ensures { (c : SendCall) → IsReleasedInTime (send.send_table c) }
{}

/// The same of a receive and of a pick, of the caller's lock and of the ready lock.
pub fn a_receive_releases_in_time()
    ensures { (c : ReceiveCall) → IsReleasedInTime (receive.receive_table c) }
{}

/// A send is its location with what is in hand there: what the locks held there guard, and nothing else. Once it was asked for its
/// step it stands at the same location, without what goes home with a release.
pub fn a_send_is_its_location()
    ensures at { (h : Hand) (p : send.SendAt) → send.at_of (send.location_with h p) ≡ p }
    ensures hand { (c : SendCall) (h : Hand) (p : send.SendAt) → send.hand_of (send.location_with h p) ≡ trimmed (send.locks_of c p) h }
    ensures back { (l : SendLocation) → send.can_ask l ≡ true → send.location_with (send.hand_of l) (send.at_of l) ≡ l }
    ensures asked { (l : SendLocation) → send.at_of (send.asked_location l) ≡ send.at_of l }
    ensures left { (c : SendCall) (own : StateWord) (l : SendLocation) → send.can_ask l ≡ true → send.hand_of (send.asked_location l) ≡ hand_asked (send.ask_of c own (send.at_of l)) (send.hand_of l) }
{}

/// The same of a receive and of a pick.
pub fn a_receive_is_its_location()
    ensures at { (h : Hand) (p : receive.ReceiveAt) → receive.at_of (receive.location_with h p) ≡ p }
    ensures hand { (c : ReceiveCall) (h : Hand) (p : receive.ReceiveAt) → receive.hand_of (receive.location_with h p) ≡ trimmed (receive.locks_of c p) h }
    ensures back { (l : ReceiveLocation) → receive.can_ask l ≡ true → receive.location_with (receive.hand_of l) (receive.at_of l) ≡ l }
    ensures asked { (l : ReceiveLocation) → receive.at_of (receive.asked_location l) ≡ receive.at_of l }
    ensures left { (c : ReceiveCall) (own : StateWord) (l : ReceiveLocation) → receive.can_ask l ≡ true → receive.hand_of (receive.asked_location l) ≡ hand_asked (receive.ask_of c own (receive.at_of l)) (receive.hand_of l) }
{}
