// What holds of every run of a monitor.
ghost use Rattle.monitor.specs.Runs.{EveryRunIsExact};

// After every call of every run the names are exactly the dead tasks, and no name is ever withdrawn.
#[tactic(auto, using(crate::proofs::EveryRun::every_run_is_exact))]
pub fn names_are_exact_in_every_run()
    ensures { EveryRunIsExact }
{}
