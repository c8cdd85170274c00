// What follows from the definition of a verdict.
ghost use Rattle.std.specs.Prelude.{◌≡◌, All, List};
ghost use Rattle.audit.specs.Checks.{Check, Holds, IsVerdict};
ghost use Rattle.audit.specs.declared.verdict.Verdict.{Verdict};
ghost use Rattle.audit.specs.declared.verdict.Verdict.TheVariants.{Yes};

/// Checks have one verdict.
pub fn verdicts_are_determined()
    ensures { (cs : List Check) (v w : Verdict) → IsVerdict cs v → IsVerdict cs w → v ≡ w }
{}

/// Where the verdict is yes, each check holds.
pub fn a_yes_holds()
    ensures { (cs : List Check) → IsVerdict cs Yes → All (λ c. Holds c.statement) cs }
{}
