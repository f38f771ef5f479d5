//! Laws on plans as JSON, and a worked example.

ghost use Rattle.plan_json.specs.JsonExamples.{JsonOfCicc};
ghost use Rattle.plan_json.specs.OneToOne.{DataIsOneToOne};

/// Two plans with the same JSON are the same: so JSON says all of a plan, what it was made for and where its commands come from.
/// This is for plans with an origin for each command, and with lines below the greatest number that there is.
pub fn data_is_one_to_one()
    ensures { DataIsOneToOne }
{}

/// The definitions give this text for a small command.
pub fn worked_json()
    ensures { JsonOfCicc }
{}
