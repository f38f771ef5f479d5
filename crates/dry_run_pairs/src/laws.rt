//! What holds of all dry runs.

ghost use Rattle.dry_run_pairs.specs.Agreement.{AgreementOrders};

/// If two dry runs agree, the forms of one are those of the other in another order: each as often, none more and none less.
pub fn agreement()
    ensures { AgreementOrders }
{}
