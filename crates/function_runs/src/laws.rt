//! Laws of results, as calls without a body of their own.

ghost use Rattle.function_runs.specs.Agreement.{HasOneOutcome};
ghost use Rattle.function_runs.specs.Results.{FunctionRun};

use machine_probe::runs_agree;

/// A function run has one result at most. Two results have the same steps, cycles and tallies; a result and a refusal
/// for another cause than memory never stand together; and two such refusals are the same.
pub fn results_agree()
    ensures { (run : FunctionRun) → HasOneOutcome run }
{
    runs_agree();
}
