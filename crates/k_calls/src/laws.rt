// Laws of the definitions.
ghost use Rattle.std.specs.Prelude.{◌≡◌, List};
ghost use Rattle.k_carrier.specs.declared.marks.StepMark.{StepMark};
ghost use Rattle.k_calls.specs.declared.lines.CallLine.{CallLine};
ghost use Rattle.k_calls.specs.Calls.{IsCalls};

/// Marks of steps have one list of calls.
pub fn marks_have_one_list_of_calls()
    ensures { (marks : List StepMark) (a b : List CallLine) → IsCalls marks a → IsCalls marks b → a ≡ b }
{}
