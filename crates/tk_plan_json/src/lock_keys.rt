//! The different lock keys.
ghost use Rattle.std.specs.Prelude.{◌≡◌, OnOk};
ghost use Rattle.tk_plan.specs.Keys.{note_key, note_locks};

use indexmap::IndexSet;
use std::alloc::{AllocError, Global};
use tk_ids::{Lock, Text};

fn note(alloc: Global, keys: &mut IndexSet<Text>, key: &str) -> Result<(), AllocError>
    ensures { OnOk result (keys.new.keys ≡ note_key keys.old.keys key.now) }
{
    if key != "global" {
        keys.insert(Text::copy(alloc, key)?)?;
    }
    Ok(())
}

/// Notes the keys of some locks.
pub(crate) fn note_all(
    alloc: Global,
    keys: &mut IndexSet<Text>,
    locks: &[Lock],
) -> Result<(), AllocError>
    ensures { OnOk result (keys.new.keys ≡ note_locks keys.old.keys locks.now) }
{
    for lock in locks {
        note(alloc, keys, lock.name.as_str())?;
    }
    Ok(())
}
