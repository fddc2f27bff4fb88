//! Entries put into a map one after the other, and taken back.

ghost use Rattle.std.specs.Prelude.{◌≡◌, ◌++◌, ◌∷◌, [], List, Option, reverse, OnOk, OnErr, IfOk};
ghost use Rattle.std.specs.BTreeMap.{insert_entry};
ghost use Rattle.std.specs.Cmp.Lexicographic.{slice_cmp};
ghost use Rattle.std.specs.List.Sorted.{IsStrictlySortedBy};
ghost use Rattle.std.specs.Map.{keys_of};
ghost use Rattle.std.specs.Ordering.{nat_cmp};
ghost use Rattle.rhd_value.specs.Tree.{Bytes};
ghost use Rattle.rhd_map.specs.Puts.{put_entries, at_name, IsPut};

use rhd_value::{OutOfMemory, Text};
use std::alloc::Global;
use std::collections::BTreeMap;

/// Puts back what stood under a name before something was put there.
fn put_back<V: Drop>(map: &mut BTreeMap<Text, V>, name: Text, was: Option<V>)
    ensures { (es : List (Bytes × V)) (value : V) → map.old.entries ≡ insert_entry (slice_cmp nat_cmp) es name value → at_name name es ≡ was → IsStrictlySortedBy (slice_cmp nat_cmp) (keys_of es)
        → map.new.entries ≡ es }
{
    match was {
        Some(value) => {
            let _put = map.insert(name, value);
        }
        None => {
            map.remove(&name);
        }
    }
}

/// Puts an entry in, and notes what stood under its name.
fn put<V: Drop>(
    alloc: Global,
    map: &mut BTreeMap<Text, V>,
    replaced: &mut Vec<(Text, Option<V>)>,
    name: Text,
    value: V,
) -> Result<(), OutOfMemory>
    ensures put { OnOk result (map.new.entries ≡ insert_entry (slice_cmp nat_cmp) map.old.entries name value) }
    ensures noted { OnOk result (replaced.new.items ≡ replaced.old.items ++ (name, at_name name map.old.entries) ∷ []) }
    ensures sorted { OnOk result (IsStrictlySortedBy (slice_cmp nat_cmp) (keys_of map.old.entries)) }
    ensures err { OnErr result (map.new.entries ≡ map.old.entries) }
    ensures still { OnErr result (replaced.new.items ≡ replaced.old.items) }
{
    let spare = name.dup(alloc)?;
    replaced.reserve(1)?;
    let was = map.insert(name, value)?;
    replaced.push_reserved((spare, was));
    Ok(())
}

/// Puts entries in, one after the other, each in the place of that of an equal name. Answers what stood
/// under each name before; where memory runs out, the map is as it was.
pub fn put_all<V: Drop>(
    alloc: Global,
    map: &mut BTreeMap<Text, V>,
    entries: Vec<(Text, V)>,
) -> Result<Vec<(Text, Option<V>)>, OutOfMemory>
    ensures put { OnOk result (map.new.entries ≡ put_entries entries.items map.old.entries) }
    ensures replaced { IfOk result (λ replaced. IsPut (reverse replaced.items) map.old.entries map.new.entries) }
    ensures err { OnErr result (map.new.entries ≡ map.old.entries) }
{
    let mut replaced = Vec::new(alloc);
    for (name, value) in entries {
        if let Err(OutOfMemory) = put(alloc, map, &mut replaced, name, value) {
            take_back(map, replaced);
            return Err(OutOfMemory);
        }
    }
    Ok(replaced)
}

/// Takes entries back, the latest first: the map is as it was before they were put in.
pub fn take_back<V: Drop>(map: &mut BTreeMap<Text, V>, replaced: Vec<(Text, Option<V>)>)
    ensures { (es : List (Bytes × V)) → IsPut (reverse replaced.items) es map.old.entries → map.new.entries ≡ es }
{
    let mut replaced = replaced;
    while let Some((name, was)) = replaced.pop() {
        put_back(map, name, was);
    }
}
