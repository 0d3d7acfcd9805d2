// What the locks guard.
use crate::numbers::Numbers;
use k_ready::ReadyLists;
use k_senders::Senders;

/// What a lock guards. It lies at the lock while nobody holds it, and is in the hand of who does.
#[derive(Drop)]
pub enum Goods {
    /// Of the table lock: the thread numbers.
    Numbers(Numbers),
    /// Of a thread lock: those who wait to send to the thread.
    Senders(Senders),
    /// Of the ready lock: the ready lists.
    Ready(ReadyLists),
}
