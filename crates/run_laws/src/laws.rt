// The laws of runs, each as the contract of a function, so that its proof is owed.
ghost use Rattle.run_laws.specs.Laws.{RunsMade, RunsExact, RunsCounted, RunsAccounted, RunsDetermined, RunsStand};
ghost use Rattle.run_laws.specs.Examples.{Examples};

// Every run's report is made of calls on a new query.
pub fn runs_are_made()
    ensures { RunsMade }
{}

// A report without fault hands out exactly the lines of the rewritten histories' join that end before its closed time.
pub fn runs_are_exact()
    ensures { RunsExact }
{}

// Its counts are those of the rewritten histories' join.
pub fn runs_are_counted()
    ensures { RunsCounted }
{}

// Its inserts are accounted for, and it has closed all that it may.
pub fn runs_are_accounted()
    ensures { RunsAccounted }
{}

// Its lines and counts depend on the rewritten histories up to its closed time alone.
pub fn runs_are_determined()
    ensures { RunsDetermined }
{}

// The report of a run without fault is made, exact, counted and accounted for.
pub fn runs_stand()
    ensures { RunsStand }
{}

// The worked example holds of the definitions.
pub fn examples_hold()
    ensures { Examples }
{}
