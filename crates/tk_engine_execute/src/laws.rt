//! The limit of an engine, the numbers of faults that have a meaning, and what runs can't differ in.
ghost use Rattle.std.specs.Prelude.{◌≡◌, ◌-◌, ◌^◌};
ghost use Rattle.tk_engine_execute.specs.Faults.{FirstFaultIsUnique};
ghost use Rattle.tk_engine_execute.specs.Results.{TallyIsUnique};
ghost use Rattle.tk_engine_execute.specs.Witnesses.{KeptWitnesses};
ghost use Rattle.atomic_table.specs.Seated.{TableId};

use crate::engines::{MAX_UNITS, OUT_OF_ORDER, TWICE};
pub use tk_claims::laws::each_worker_has_its_list;

/// An engine has at most 65,536 units.
pub fn limits()
    ensures units { MAX_UNITS ≡ 65536 }
{}

/// The numbers of the faults of a unit.
pub fn fault_numbers()
    ensures out_of_order { OUT_OF_ORDER ≡ 2 ^ 32 - 1 }
    ensures twice { TWICE ≡ 2 ^ 32 - 2 }
{}

/// Of the failures that workers had, one is the first.
pub fn first_fault_is_unique()
    ensures { FirstFaultIsUnique }
{}

/// A record leaves no choice of what the workers sent, nor of how many events that were.
pub fn tally_is_unique()
    ensures { TallyIsUnique }
{}

/// Shows with numbers that the record of a failed run keeps what was sent, and refuses other records.
pub fn kept_witnesses()
    ensures { (session : TableId) → KeptWitnesses session }
{}
