// The linearization point of a step.
use k_ids::{Act, Outcome, ThreadId};

/// The event of a step at which a call takes effect, with its outcome (Herlihy and Wing, *Linearizability*).
#[derive(Clone, Copy, Debug, PartialEq, Eq)]
pub struct Point {
    pub who: ThreadId,
    pub act: Act,
    pub outcome: Outcome,
}
