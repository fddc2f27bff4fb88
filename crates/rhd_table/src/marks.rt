//! The marks of filters: the hashes of keys that have a parameter of any type.

ghost use Rattle.std.specs.Prelude.{◌≡◌, ◌||◌, ℕ};
ghost use Rattle.std.specs.List.{list_any};
ghost use Rattle.rhd_hash.specs.Filter.{is_marked};
ghost use Rattle.rhd_manifest.specs.Listing.{listed_in};
ghost use Rattle.rhd_table.specs.Marks.{has_slot, may_be_dynamic, lists_dynamic};

use rhd_decl::Declaration;
use rhd_hash::{BloomFilterU64, Seeds, SharedKey};
use rhd_manifest::{EntryList, FnManifestEntry};
use std::rc::Rc;

/// Marks the hash of a key's name and number of parameters, if there is one.
pub fn mark_dynamic(filter: &mut BloomFilterU64<8>, hash: Option<u64>)
    ensures { (v : _) → is_marked 8 filter.new v ≡ (is_marked 8 filter.old v || has_slot hash v) }
{
    if let Some(hash) = hash {
        filter.mark(hash);
    }
}

/// Marks the hashes of the keys of some declarations that have a parameter of any type.
pub fn mark_pairs(filter: &mut BloomFilterU64<8>, seeds: Seeds, pairs: &[(SharedKey, Declaration)])
    ensures { (v : ℕ) → is_marked 8 filter.new v ≡ (is_marked 8 filter.old v || list_any (λ p. may_be_dynamic seeds v p.0) pairs.now) }
{
    for (key, _declaration) in pairs {
        mark_dynamic(filter, key.key().dynamic_hash(seeds));
    }
}

/// Marks the hashes of the keys of listed functions that have a parameter of any type.
fn mark_entries(filter: &mut BloomFilterU64<8>, seeds: Seeds, entries: &[FnManifestEntry])
    ensures { (v : ℕ) → is_marked 8 filter.new v ≡ (is_marked 8 filter.old v || lists_dynamic seeds v entries.now) }
{
    for entry in entries {
        mark_dynamic(filter, entry.key().dynamic_hash(seeds));
    }
}

/// The same of all that some manifests list.
pub fn mark_parts(filter: &mut BloomFilterU64<8>, seeds: Seeds, parts: &[Rc<EntryList>])
    ensures { (v : ℕ) → is_marked 8 filter.new v ≡ (is_marked 8 filter.old v || lists_dynamic seeds v (listed_in parts.now)) }
{
    for part in parts {
        mark_entries(filter, seeds, part.as_slice());
    }
}
