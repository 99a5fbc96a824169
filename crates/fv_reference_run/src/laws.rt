//! A law of the definitions.

ghost use Rattle.std.specs.Prelude.{List};
ghost use Rattle.fv_model.specs.Machines.{Machine};
ghost use Rattle.fv_model.specs.Runs.{Line};
ghost use Rattle.fv_reference_run.specs.Output.{output, IsTold};

/// A law: the output that is promised for a script is told of replies that the machine allows, one for each
/// line, with a question mark where it leaves the answer open. It does nothing.
#[tactic(auto, using(crate::proofs::Allowed::is_told))]
pub fn output_is_allowed()
    ensures { (m : Machine) (lines : List Line) → IsTold m lines (output m lines) }
{}
