// What holds of carriers. Each law is a function that does nothing, whose contract is the law.
ghost use Rattle.k_script.specs.Script as scripts;
ghost use Rattle.k_carrier.specs.Laws.{SwitchesFirst};
ghost use Rattle.k_carrier.specs.Seen.{CarrierSeen};

/// While a thread is to be started, the slice of time has ended or a thread of a higher priority is ready, a carrier makes a step of
/// a context only while it switches, for its switch or for the context that the switch waits for.
pub fn what_is_pending_comes_first()
    ensures { (script : scripts.Script) (c : CarrierSeen) → SwitchesFirst script c }
{}
