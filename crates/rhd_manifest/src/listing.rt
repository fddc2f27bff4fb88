//! The functions that manifests list, in their order.

ghost use Rattle.std.specs.Prelude.{◌≡◌, ◌<◌, ◌+◌, ◌++◌, [], true, map, length, drop, reverse, IfOk, OnOk, OnErr};
ghost use Rattle.std.specs.List.{list_any};
ghost use Rattle.std.specs.Option.{option_copied};
ghost use Rattle.rhd_hash.specs.Keys.{key_eq};
ghost use Rattle.rhd_manifest.specs.Entry.{entry_key};
ghost use Rattle.rhd_manifest.specs.Index.{index_hash};
ghost use Rattle.rhd_manifest.specs.Listing.{listed_in, is_none_of};
ghost use Rattle.rhd_manifest.specs.Rank.{flattened, rank, find_entry, firsts};

use crate::entry::FnManifestEntry;
use crate::entry_list::{EntryList, index_hash};
use crate::manifests::Manifests;
use rhd_func::ManifestId;
use rhd_hash::Key;
use rhd_value::OutOfMemory;
use std::alloc::Global;
use std::marker::Model;
use std::rc::Rc;

/// The functions that some manifests list, which are shared with these. Contracts see the list of them,
/// from the highest precedence to the lowest.
#[derive(Drop)]
pub struct Listing {
    /// Those of one manifest after the other, from the lowest precedence to the highest.
    parts: Vec<Rc<EntryList>>,
}

impl Model for Listing {
    ghost use Rattle.std.specs.Prelude.{List};
    ghost use Rattle.std.specs.Coded.{coded_list};
    ghost use Rattle.rhd_manifest.specs.Entry.{Entry, coded_entry};
    ghost use Rattle.rhd_manifest.specs.Listing.{listed_in};

    ghost Value = { List Entry };

    ghost coded = { coded_list coded_entry };

    ghost view = { λ l. listed_in l.parts.items };
}

/// One more owner of a list.
fn share(part: &Rc<EntryList>) -> Result<Rc<EntryList>, OutOfMemory>
    ensures { IfOk result (λ shared. shared.value ≡ part.now.value) }
{
    Ok(part.clone()?)
}

/// Puts what a manifest lists, flattened, above what is there.
fn list_flattened(
    manifests: &Manifests,
    id: ManifestId,
    parts: &mut Vec<Rc<EntryList>>,
) -> Result<(), OutOfMemory>
    ensures { OnOk result (listed_in parts.new.items ≡ flattened manifests.now id ++ listed_in parts.old.items) }
{
    let Some(manifest) = manifests.get(id) else {
        return Ok(());
    };
    parts.push(manifest.share_functions()?)?;
    for sub in manifest.sub_modules() {
        list_flattened(manifests, sub.1, parts)?;
    }
    Ok(())
}

/// Whether some function is under a key, by its hash.
fn any_has(parts: &[Rc<EntryList>], hash: u64, key: &Key) -> bool
    requires { hash ≡ index_hash key.now }
    ensures { result ≡ list_any (λ e. key_eq key.now (entry_key e)) (listed_in parts.now) }
{
    for part in parts {
        if part.find_key(hash, key).is_some() {
            return true;
        }
    }
    false
}

/// Whether a function of one manifest is under the key of one before it: of one behind its place, or of
/// one of the manifests above.
fn is_hidden(part: &EntryList, above: &[Rc<EntryList>], place: usize, key: &Key) -> bool
    requires { place < length part.now }
    ensures { result ≡ list_any (λ e. key_eq key.now (entry_key e)) (listed_in above.now ++ reverse (drop (place + 1) part.now)) }
{
    let hash = index_hash(key);
    part.has_behind(place, hash, key) || any_has(above, hash, key)
}

/// Puts those functions of one manifest last that aren't hidden: from the last to the first, behind those
/// of the manifests above.
fn push_firsts<'a>(
    part: &'a EntryList,
    above: &[Rc<EntryList>],
    found: &mut Vec<&'a FnManifestEntry>,
) -> Result<(), OutOfMemory>
    requires { map (λ e. e.now) found.old.items ≡ firsts (listed_in above.now) }
    ensures { OnOk result (map (λ e. e.now) found.new.items ≡ firsts (listed_in above.now ++ reverse part.now)) }
{
    let entries = part.as_slice();
    for place in (0..entries.len()).rev() {
        let entry = &entries[place];
        if !is_hidden(part, above, place, entry.key()) {
            found.push(entry)?;
        }
    }
    Ok(())
}

/// The function of highest precedence under each key, from the highest precedence to the lowest.
fn firsts_in(alloc: Global, parts: &[Rc<EntryList>]) -> Result<Vec<&FnManifestEntry>, OutOfMemory>
    ensures { IfOk result (λ found. map (λ e. e.now) found.items ≡ firsts (listed_in parts.now)) }
{
    let mut found = Vec::new(alloc);
    for place in (0..parts.len()).rev() {
        push_firsts(&parts[place], &parts[place + 1..], &mut found)?;
    }
    Ok(found)
}

/// Whether none of these lists has a function.
fn no_entry(parts: &[Rc<EntryList>]) -> bool
    ensures { result ≡ is_none_of (listed_in parts.now) }
{
    for part in parts {
        if !part.as_slice().is_empty() {
            return false;
        }
    }
    true
}

impl Listing {
    /// No functions.
    pub fn new(alloc: Global) -> Listing
        ensures { result ≡ [] }
    {
        Listing {
            parts: Vec::new(alloc),
        }
    }

    /// The same functions for one more owner.
    pub fn dup(&self, alloc: Global) -> Result<Listing, OutOfMemory>
        ensures { IfOk result (λ copy. copy ≡ self.now) }
    {
        let mut parts = Vec::new(alloc);
        for part in &self.parts {
            parts.push(share(part)?)?;
        }
        Ok(Listing { parts })
    }

    /// Puts other functions above these.
    pub fn raise(&mut self, others: Listing) -> Result<(), OutOfMemory>
        ensures ok { OnOk result (self.new ≡ others ++ self.old) }
        ensures err { OnErr result (self.new ≡ self.old) }
    {
        let mut parts = others.parts;
        self.parts.append(&mut parts)?;
        Ok(())
    }

    /// Whether it has no functions.
    pub fn is_empty(&self) -> bool
        ensures { result ≡ is_none_of self.now }
    {
        no_entry(self.parts.as_slice())
    }

    /// The lists of which it consists, from the lowest precedence to the highest.
    pub fn parts(&self) -> &[Rc<EntryList>]
        ensures { listed_in result.now ≡ self.now }
    {
        self.parts.as_slice()
    }

    /// The function of highest precedence under a key. Each manifest is asked once, however many functions
    /// it lists.
    pub fn find(&self, key: &Key) -> Option<&FnManifestEntry>
        ensures { option_copied result ≡ find_entry key.now self.now }
    {
        if self.parts.is_empty() {
            return None;
        }
        if key.is_script() {
            return None;
        }
        let hash = index_hash(key);
        for part in self.parts.iter().rev() {
            let found = part.find_key(hash, key);
            if found.is_some() {
                return found;
            }
        }
        None
    }

    /// The function of highest precedence under each key, from the highest precedence to the lowest.
    pub fn firsts(&self, alloc: Global) -> Result<Vec<&FnManifestEntry>, OutOfMemory>
        ensures { IfOk result (λ found. map (λ e. e.now) found.items ≡ firsts self.now) }
    {
        firsts_in(alloc, self.parts.as_slice())
    }
}

impl Manifests {
    /// The functions that the manifest of a number lists, flattened or not.
    pub fn listing(
        &self,
        alloc: Global,
        id: ManifestId,
        flatten: bool,
    ) -> Result<Listing, OutOfMemory>
        ensures { IfOk result (λ listing. listing ≡ rank self.now id flatten) }
    {
        let mut parts = Vec::new(alloc);
        let Some(manifest) = self.get(id) else {
            return Ok(Listing { parts });
        };
        if flatten {
            list_flattened(self, id, &mut parts)?;
            return Ok(Listing { parts });
        }
        parts.push(manifest.share_functions()?)?;
        Ok(Listing { parts })
    }
}
