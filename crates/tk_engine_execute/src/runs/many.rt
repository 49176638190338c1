//! Many runs of an engine.
ghost use Rattle.std.specs.Prelude.{◌≡◌, ℕ, false, Err, IfOk, IfSome};
ghost use Rattle.std.specs.Fn.{FnReturnsAt};
ghost use Rattle.tk_claims.specs.Run.{IsRun};
ghost use Rattle.tk_engine_execute.specs.Engines.{MayFail};
ghost use Rattle.tk_engine_execute.specs.Results.{IsTallied};
ghost use Rattle.tk_engine_execute.specs.declared.engines.UnitFault.{UnitFault};

use crate::engines::Engine;
use crate::results::Results;
use crate::run_faults::RunFault;
use crate::runs::execute;
use std::alloc::Global;
use std::sync::Wait;
use std::thread::Threads;

/// Runs an engine at most `runs` times, each time as [`execute`] does, until `passes` is false of a
/// run, and returns the results of this run.
///
/// What hangs on the order in which the workers come, as a lock that was forgotten, a single run
/// seldom shows. `None` says that each run passed.
///
/// # Errors
/// That of the first run that failed.
pub fn execute_many<R: Threads + Wait + Sync, E: Engine, F: Fn(&Results) -> bool>(
    rt: &R,
    alloc: Global,
    engine: &E,
    workers: usize,
    capacity: usize,
    runs: usize,
    passes: &F,
) -> Result<Option<Results>, RunFault>
    requires { F.IsAlwaysCallable passes.now }
    ensures run { IfOk result (λ found. IfSome found (λ r.
        IsRun (E.may engine.now) (E.table engine.now) (E.before engine.now)
        (E.after engine.now) (E.units engine.now) workers r.recorded)) }
    ensures tally { IfOk result (λ found. IfSome found (λ r.
        IsTallied workers r.closed r.recorded.entries)) }
    ensures failed { IfOk result (λ found. IfSome found (λ r.
        FnReturnsAt F.Fn passes.now r false)) }
    ensures unit { (unit : ℕ) (why : UnitFault) → result ≡ Err (RunFault.Engine unit why)
        → MayFail (E.units engine.now) (E.fails engine.now) unit why }
{
    for _ in 0..runs {
        let results = match execute(rt, alloc, engine, workers, capacity) {
            Ok(results) => results,
            Err(fault) => return Err(fault),
        };
        if !passes(&results) {
            return Ok(Some(results));
        }
    }
    Ok(None)
}
