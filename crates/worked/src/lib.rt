// The worked examples of all definitions in one statement.
#![tactic(auto)]

ghost use Rattle.worked.specs.Worked.{Worked};

// Each crate proves its own examples; here they stand together.
pub fn worked_examples_hold()
    ensures { Worked }
{
    decimals::decimal_examples();
    groups::groups_examples();
    kinds::examples_hold();
    receipts::laws::examples_hold();
    rewriting::laws::examples_hold();
    run_laws::laws::examples_hold();
}
