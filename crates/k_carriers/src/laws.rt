// The laws of the carriers one by one. Each is a function that does nothing, whose contract is the law.
ghost use Rattle.k_carrier.specs.Flags.{has_hand, is_settled};
ghost use Rattle.k_carrier.specs.Seen.{CarrierSeen};
ghost use Rattle.k_script.specs.Script.{Script};
ghost use Rattle.k_world.specs.Steps.{moved, parked, sliced, started};
ghost use Rattle.k_world.specs.Worlds.{World, carrier_at};
ghost use Rattle.std.specs.Prelude.{false, length, true, ℕ, ◌<◌, ◌≡◌, ◌≢◌};

/// A step of a carrier, and what comes to it from outside, leaves each other carrier as it was.
pub fn other_carriers_are_as_they_were()
    ensures step { (script : Script) (w : World) (c i : ℕ) → i ≢ c → carrier_at (moved script c w) i ≡ carrier_at w i }
    ensures start { (w : World) (c number i : ℕ) → i ≢ c → carrier_at (started c number w) i ≡ carrier_at w i }
    ensures slice { (w : World) (c i : ℕ) → i ≢ c → carrier_at (sliced c w) i ≡ carrier_at w i }
    ensures park { (w : World) (c i : ℕ) → i ≢ c → carrier_at (parked c w) i ≡ carrier_at w i }
{}

/// What comes from outside gives no carrier a hand, and takes none; and a start and the end of a slice leave who is parked.
pub fn a_hand_is_changed_by_steps_alone()
    ensures start { (w : World) (c number i : ℕ) → has_hand (carrier_at (started c number w) i) ≡ has_hand (carrier_at w i) }
    ensures slice { (w : World) (c i : ℕ) → has_hand (carrier_at (sliced c w) i) ≡ has_hand (carrier_at w i) }
    ensures park { (w : World) (c i : ℕ) → has_hand (carrier_at (parked c w) i) ≡ has_hand (carrier_at w i) }
    ensures start_parked { (w : World) (c number i : ℕ) →
        (carrier_at (started c number w) i).putting ≡ (carrier_at w i).putting }
    ensures slice_parked { (w : World) (c i : ℕ) → (carrier_at (sliced c w) i).putting ≡ (carrier_at w i).putting }
{}

/// Who is settled has no context in hand.
pub fn who_is_settled_has_no_hand()
    ensures { (k : CarrierSeen) → is_settled k ≡ true → has_hand k ≡ false }
{}

/// Who is parked gives its hand at its next step, whatever it finds.
pub fn who_is_parked_gives_its_hand()
    ensures parked { (w : World) (c : ℕ) → c < length w.carriers → (carrier_at (parked c w) c).putting ≡ true }
    ensures gives { (script : Script) (w : World) (c : ℕ) → c < length w.carriers → (carrier_at w c).putting ≡ true
        → has_hand (carrier_at w c) ≡ true → has_hand (carrier_at (moved script c w) c) ≡ false }
{}
