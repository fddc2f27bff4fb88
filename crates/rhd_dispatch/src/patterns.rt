//! The search for a native by the patterns of its types, over any look-up. A pattern is made in the key that
//! is looked up, and taken back. It takes no memory.

ghost use Rattle.std.specs.Prelude.{◌≡◌, ◌≤◌, ◌+◌, ◌*◌, ◌-◌, [], true, None, length, take, drop};
ghost use Rattle.std.specs.Option.{option_map};
ghost use Rattle.rhd_hash.specs.Keys.{key_types};
ghost use Rattle.rhd_dispatch.specs.Patterns.{patterns, patterns_to};
ghost use Rattle.rhd_hash.specs.Untyped.{IsUntyped};
ghost use Rattle.rhd_dispatch.specs.Walks.{first_typed, any_dynamic};

use crate::look::Look;
use rhd_hash::{Key, Seeds, Steps, UntypedHash};
use rhd_value::TypeTag;

/// How many types a pattern may change.
const MOST_CHANGED: usize = 16;

/// What the first pattern has that has anything, where the types before a place stay, and one of them is
/// `Dynamic`. Where nothing may match, no pattern is looked up.
fn find_from<L: Look>(
    look: L,
    hash: UntypedHash,
    key: &mut Key,
    place: usize,
    steps: &mut Steps,
) -> Option<L::Found>
    requires within { place ≤ length (key_types key.old) }
    requires dynamic { any_dynamic (take place (key_types key.old)) ≡ true }
    requires hash { IsUntyped hash key.old }
    ensures found { option_map L.pick result ≡ first_typed (L.look look) key.old place }
    ensures kept { key.new ≡ key.old }
    ensures steps { steps.new ≤ steps.old + length (patterns_to (16 - place) (drop place (key_types key.old))) * L.modules look }
{
    if place >= MOST_CHANGED {
        return look.find(key, steps);
    }
    let types = key.types();
    if place >= types.len() {
        return look.find(key, steps);
    }
    if !look.may_match(hash, place, key) {
        return None;
    }
    let exact = types[place];
    let kept = find_from(look, hash, key, place + 1, steps);
    if kept.is_some() {
        return kept;
    }
    key.set_type(place, TypeTag::Dynamic);
    let changed = find_from(look, hash, key, place + 1, steps);
    key.set_type(place, exact);
    changed
}

/// The same where there is nothing for exactly these types: they aren't looked up again.
fn find_others<L: Look>(
    look: L,
    hash: UntypedHash,
    key: &mut Key,
    place: usize,
    steps: &mut Steps,
) -> Option<L::Found>
    requires within { place ≤ length (key_types key.old) }
    requires missed { L.look look key.old ≡ None }
    requires hash { IsUntyped hash key.old }
    ensures found { option_map L.pick result ≡ first_typed (L.look look) key.old place }
    ensures kept { key.new ≡ key.old }
    ensures steps { steps.new + L.modules look ≤ steps.old + length (patterns_to (16 - place) (drop place (key_types key.old))) * L.modules look }
{
    if place >= MOST_CHANGED {
        return None;
    }
    let types = key.types();
    if place >= types.len() {
        return None;
    }
    if !look.may_match(hash, place, key) {
        return None;
    }
    let kind = types[place];
    let others = find_others(look, hash, key, place + 1, steps);
    if others.is_some() {
        return others;
    }
    key.set_type(place, TypeTag::Dynamic);
    let changed = find_from(look, hash, key, place + 1, steps);
    key.set_type(place, kind);
    changed
}

/// What the first pattern of a key's types has that has anything. The exact types are the first pattern, and
/// they aren't looked up twice.
pub(crate) fn find_typed<L: Look>(
    look: L,
    seeds: Seeds,
    key: &mut Key,
    steps: &mut Steps,
) -> Option<L::Found>
    ensures found { option_map L.pick result ≡ first_typed (L.look look) key.old 0 }
    ensures kept { key.new ≡ key.old }
    ensures steps { steps.new ≤ steps.old + length (patterns (key_types key.old)) * L.modules look }
{
    let exact = look.find(key, steps);
    if exact.is_some() {
        return exact;
    }
    find_others(look, UntypedHash::new(key, seeds), key, 0, steps)
}
