//! Which parts were seen, and what the one that was seen last weighs.

ghost use Rattle.std.specs.Prelude.{◌≡◌, ◌≤◌, IfNone, IfOk, IfSome, None, OnOk, Some, ℕ, true};
ghost use Rattle.std.specs.HashMap.{Updates, get};
ghost use Rattle.repeat_runs.specs.Seen as spec;

use mixing::Mixer;
use std::alloc::AllocError;
use std::collections::HashMap;
use std::hash::{BuildHasherDefault, Hash};

/// The parts that were seen, each with what the last one that is equal to it weighs.
pub(crate) type Seen<K> = HashMap<K, u32, BuildHasherDefault<Mixer>>;

/// Sees a part with its weight. It returns the weight as a mark if an equal part was seen before, and 0 if none was.
/// It returns `None` if the one that was seen before weighs more.
pub(crate) fn see<K: Hash + Eq + Drop>(
    seen: &mut Seen<K>,
    key: K,
    weight: u32,
) -> Result<Option<u32>, AllocError>
    ensures updates { OnOk result (Updates K.eq seen.old seen.new key (Some weight)) }
    ensures mark { IfOk result (λ found. IfSome found (λ mark. spec.IsMark (get K.eq seen.old key) weight mark)) }
    ensures none { IfOk result (λ found. IfNone found (spec.IsHeavier (get K.eq seen.old key) weight)) }
{
    match seen.insert(key, weight)? {
        None => Ok(Some(0)),
        Some(before) if before > weight => Ok(None),
        Some(_) => Ok(Some(weight)),
    }
}
