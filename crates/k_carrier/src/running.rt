// What is told, for the logs, of the context in a carrier's hand and of one that is waited for.
ghost use Rattle.std.specs.Prelude.{◌≡◌};
ghost use Rattle.k_locks.specs.Locks.{lowest_held};
ghost use Rattle.k_script.specs.Script as scripts;
ghost use Rattle.k_context.specs.Contexts.{seen_in};
ghost use Rattle.k_context.specs.Contexts as contexts;
ghost use Rattle.k_carrier.specs.Conditions.{IsSound};
ghost use Rattle.k_carrier.specs.Running.{holder_in, holder_of, left_for, runner_of, running_in};
ghost use Rattle.k_carrier.specs.Seen.{carrier_in};

use crate::carrier::Carrier;
use crate::marks::Want;
use k_context::{Context, Owner};
use k_locks::Lock;

/// The context in a carrier's hand, as a step of it is logged: whose it is, which step comes next, and for whom it is made.
#[derive(Clone, Copy, Debug, PartialEq, Eq)]
pub struct Running {
    /// The number of the context.
    pub context: u8,
    pub owner: Owner,
    /// Of the owner's call or switch.
    pub serial: u32,
    /// The steps that were made for it.
    pub done: u32,
    /// The carrier's goal, or the carrier itself where it switches.
    pub runner: Owner,
    /// Whether the carrier helps this context.
    pub is_helped: bool,
}

/// A context that holds up what is wanted.
#[derive(Clone, Copy, Debug, PartialEq, Eq)]
pub struct Holder {
    pub owner: Owner,
    /// Of the owner's call or switch.
    pub serial: u32,
    /// The steps that it has left until it has released what is wanted, that release included.
    pub left: u32,
}

impl Holder {
    /// What is told of a context that holds up a want. Of a context that is to be removed, it is the lock of the lowest rank that it
    /// holds which has to be released.
    pub fn of(context: &Context, wanted: Want) -> Holder
        requires { (script : scripts.Script) × contexts.IsSound script (seen_in script context.now) }
        ensures { (script : scripts.Script) → result ≡ holder_of (seen_in script context.now) wanted }
    {
        Holder {
            owner: context.owner(),
            serial: context.serial(),
            left: left_for(context, wanted),
        }
    }
}

fn left_for(context: &Context, wanted: Want) -> u32
    requires { (script : scripts.Script) × contexts.IsSound script (seen_in script context.now) }
    ensures { (script : scripts.Script) → result ≡ left_for (seen_in script context.now) wanted }
{
    match wanted {
        Want::Lock(lock) => context.left(lock),
        Want::Context(_) => match lowest_held(context.holds()) {
            Some(lock) => context.left(lock),
            None => 0,
        },
    }
}

// The lock of the lowest rank of those that are held, by rank.
fn lowest_held(held: [Option<Lock>; 3]) -> Option<Lock>
    ensures { result ≡ lowest_held held }
{
    match held {
        [Some(lock), _, _] | [None, Some(lock), _] => Some(lock),
        [None, None, last] => last,
    }
}

impl Carrier {
    /// What is told of the context in its hand.
    pub fn running(&self) -> Option<Running>
        ensures { (script : scripts.Script) → result ≡ running_in (carrier_in script self.now) }
    {
        match &self.hand {
            None => None,
            Some(hand) => Some(Running {
                context: hand.context,
                owner: hand.value.owner(),
                serial: hand.value.serial(),
                done: hand.value.done(),
                runner: self.runner(),
                is_helped: self.is_helped(hand.context),
            }),
        }
    }

    /// What is told of the context in its hand, where that holds up a want.
    pub fn holder(&self, wanted: Want) -> Option<Holder>
        requires { (script : scripts.Script) × IsSound script (carrier_in script self.now) }
        ensures { (script : scripts.Script) → result ≡ holder_in (carrier_in script self.now) wanted }
    {
        match &self.hand {
            None => None,
            Some(hand) => Some(Holder::of(&hand.value, wanted)),
        }
    }

    // For whom it makes a step: for itself while it switches, else for its goal.
    fn runner(&self) -> Owner
        ensures { (script : scripts.Script) → result ≡ runner_of (carrier_in script self.now) }
    {
        match self.goal {
            Some(goal) if !self.switching => Owner::Thread(goal.id),
            _ => Owner::Carrier(self.number),
        }
    }
}
