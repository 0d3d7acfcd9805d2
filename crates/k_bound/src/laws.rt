// The laws of waits. Each is a function that does nothing, whose contract is the law.
ghost use Rattle.std.specs.Prelude.{Bool, List, ◌+◌, ◌^◌, ◌++◌, ◌<◌, ◌≡◌, ◌≢◌, ◌≤◌, [], ◌∷◌, false, length, reverse, ℕ};
ghost use Rattle.k_locks.specs.Steps.{one_more};
ghost use Rattle.k_bound.specs.Chains.{IsSound};
ghost use Rattle.k_bound.specs.Hands.{CarrierEvent, IsCarrierSound, first_carrier, meets_taken, run_of};
ghost use Rattle.k_bound.specs.Logs.{IsBoundedEntry, IsShown, MarkEntry, capped, entry_begun, entry_counted, entry_linked, links_in};
ghost use Rattle.k_bound.specs.Sections.{RemoveOthers, SectionLaws, Sections};
ghost use Rattle.k_bound.specs.Worked.{Moment, link_logged, mark_logged, worked_carrier, worked_end, worked_entry, worked_log, worked_mark, worked_sections};
ghost use Rattle.k_bound.specs.Waits.{AreBounded, HelpingStep, IsBounded, Link, OwnerFound, WaitMark, mark_begun, mark_counted, mark_linked, run, started};

/// Critical sections that wait for each other: what they step on, what they publish of themselves, the states that are good,
/// and that the ten laws hold of these.
pub trait Sectioned {
    ghost State: { Type 0 };

    ghost sections: { Sections State };

    ghost IsGood: { State → Type 0 };

    ghost laws: { SectionLaws State sections IsGood };
}

/// Where one carrier makes all steps, each wait mark that was got is bounded; and of a mark that stands, what was used and what
/// its chain still has to go are at most what its links allow.
pub fn a_wait_is_bounded<S: Sectioned>()
    ensures got { (state : S.State) (requester : ℕ) (steps : List HelpingStep) → S.IsGood state →
        AreBounded (run S.sections steps (started state requester)).got }
    ensures sound { (state : S.State) (requester : ℕ) (steps : List HelpingStep) → S.IsGood state →
        IsSound S.sections S.IsGood (run S.sections steps (started state requester)) }
{}

/// The same of the carrier with its hand: by the rules of giving a context back, of looking at one and of taking one, and
/// whatever interrupts or parks it. Where sections remove the contexts of others alone, it never meets a taken one.
pub fn a_wait_is_bounded_by_the_rules_of_the_hand<S: Sectioned>()
    ensures got { (state : S.State) (own : ℕ) (events : List CarrierEvent) → S.IsGood state →
        AreBounded (run_of S.sections events (first_carrier state own)).got }
    ensures sound { (state : S.State) (own : ℕ) (events : List CarrierEvent) → S.IsGood state →
        IsCarrierSound S.sections S.IsGood (run_of S.sections events (first_carrier state own)) }
    ensures never_taken { (state : S.State) (own : ℕ) (events : List CarrierEvent) → RemoveOthers S.State S.sections S.IsGood →
        S.IsGood state → let carrier = run_of S.sections events (first_carrier state own) in
        meets_taken S.sections carrier carrier.hand ≡ false }
{}

/// The logs show a mark: from its beginning on, through each link, through each step that is counted or left out, and whatever
/// links of other marks are appended in between.
pub fn logs_show_a_mark<L>()
    ensures begun { (mark_of : L → ℕ) (link_of : L → Link) (mark : ℕ) (log : List L) (l : L) → mark_of l ≡ mark →
        IsShown mark_of link_of mark (entry_begun (length log) (link_of l)) (log ++ l ∷ []) (mark_begun (link_of l)) }
    ensures linked { (mark_of : L → ℕ) (link_of : L → Link) (mark : ℕ) (entry : MarkEntry) (log : List L) (shown : WaitMark)
        (l : L) → IsShown mark_of link_of mark entry log shown → mark_of l ≡ mark →
        IsShown mark_of link_of mark (entry_linked (link_of l) entry) (log ++ l ∷ []) (mark_linked (link_of l) shown) }
    ensures counted { (mark_of : L → ℕ) (link_of : L → Link) (mark : ℕ) (entry : MarkEntry) (log : List L) (shown : WaitMark)
        (by_owner : Bool) (help : OwnerFound) → IsShown mark_of link_of mark entry log shown →
        IsShown mark_of link_of mark (entry_counted entry) log (mark_counted by_owner help shown) }
    ensures left_out { (mark_of : L → ℕ) (link_of : L → Link) (mark : ℕ) (entry : MarkEntry) (log : List L) (shown : WaitMark)
        (by_owner : Bool) (help : OwnerFound) → IsShown mark_of link_of mark entry log shown →
        IsShown mark_of link_of mark entry log (mark_counted by_owner help shown) }
    ensures passed_over { (mark_of : L → ℕ) (link_of : L → Link) (mark : ℕ) (entry : MarkEntry) (log : List L)
        (shown : WaitMark) (l : L) → IsShown mark_of link_of mark entry log shown → mark_of l ≢ mark →
        IsShown mark_of link_of mark entry (log ++ l ∷ []) shown }
{}

/// A mark's links are the first so many from an index on that are this mark's, whatever is appended; and where the mark is
/// bounded, so is what the logs say of it.
pub fn logs_tell_what_they_show<L>()
    ensures links { (mark_of : L → ℕ) (link_of : L → Link) (mark : ℕ) (entry : MarkEntry) (log more : List L)
        (shown : WaitMark) → IsShown mark_of link_of mark entry log shown → length shown.links < 2 ^ 32 →
        links_in mark_of link_of mark entry (log ++ more) ≡ reverse shown.links }
    ensures bounded { (mark_of : L → ℕ) (link_of : L → Link) (mark : ℕ) (entry : MarkEntry) (log : List L)
        (shown : WaitMark) → IsShown mark_of link_of mark entry log shown → IsBounded shown →
        IsBoundedEntry mark_of link_of mark entry log }
{}

/// A count or a sum that stands still at the end of its numbers is the true one, or less.
pub fn a_count_that_stands_still_is_no_more()
    ensures counted { (n : ℕ) → one_more (capped n) ≡ capped (n + 1) }
    ensures added { (m n : ℕ) → capped (capped m + n) ≡ capped (n + m) }
    ensures no_more { (n : ℕ) → capped n ≤ n }
{}

/// A worked chain, of sections that keep the ten laws: the requester gets the table lock after five steps of the two owners, and
/// five is what their links allow. Each owner is linked once, though the requester finds one of them twice.
pub fn a_chain_is_worked_out()
    ensures got { worked_end.got ≡ worked_mark ∷ [] }
    ensures got_by_hand { worked_carrier.got ≡ worked_mark ∷ [] }
    ensures logged { links_in mark_logged link_logged 7 worked_entry worked_log ≡ reverse worked_mark.links }
    ensures laws { SectionLaws Moment worked_sections (λ m. Unit {0}) }
{}
