//! Declarations by key, and what is searched for among them.

ghost use Rattle.std.specs.Prelude.{◌≡◌, ℕ, List, ◌++◌, [], length, slice_get, None, is_none, is_some, true, false, OnOk, OnErr, IfOk, IfErr};
ghost use Rattle.std.specs.List.{AllByRecursion, list_any};
ghost use Rattle.std.specs.Map.{lookup, keys_of};
ghost use Rattle.std.specs.Option.{option_copied};
ghost use Rattle.rhd_hash.specs.Covers.{Covers, HasNoScript};
ghost use Rattle.rhd_hash.specs.Keys.{key_eq};
ghost use Rattle.rhd_hash.specs.Refusal.{IsRefusal};
ghost use Rattle.rhd_hash.specs.Table.{HasOwnHashes};
ghost use Rattle.rhd_hash.specs.declared.fault.TableFault.{TableFault};
ghost use Rattle.rhd_decl.specs.Collisions.{collision};
ghost use Rattle.rhd_table.specs.Found.{commented, comment_on, script_in};
ghost use Rattle.rhd_table.specs.Indexed.{IsClash};
ghost use Rattle.rhd_table.specs.NativeIndex.{dynamic_matches, is_noted_by, noted, place_at, matches_at};
ghost use Rattle.rhd_table.specs.Pairs.{put, put_all};

use crate::growing::grow;
use crate::native_index::NativeIndex;
use crate::script_search::{typed_script, untyped_script};
use indexmap::map::Values;
use rhd_decl::{DeclFault, Declaration, SharedMetadata};
use rhd_func::SharedDef;
use rhd_hash::{BloomFilterU64, HashedKey, Key, KeyTable, Seeds, SharedKey, calc_untyped_fn_hash};
use rhd_value::{OutOfMemory, Text, Texts, TypeTag};
use std::alloc::Global;
use std::marker::Model;

/// Declarations by key, in the order in which their keys came first. Contracts see the seeds under which
/// keys are hashed, and the list of pairs.
#[derive(Drop)]
pub struct Declarations {
    table: KeyTable<Declaration>,
    /// Where the natives of a name and a number of parameters stand that have one of any type.
    natives: NativeIndex,
}

impl Model for Declarations {
    ghost use Rattle.rhd_decl.specs.declared.declaration.Declaration.{Declaration as Decl};
    ghost use Rattle.rhd_hash.specs.Table.{Table};
    ghost use Rattle.rhd_table.specs.NativeIndex.{IsIndex};

    ghost Value = { Table Decl };

    ghost view = { λ d. d.table };

    ghost invariant = { λ d. IsIndex d.natives d.table.seeds d.table.pairs };
}

/// Notes the place of a declaration, if its key has a parameter of any type.
pub(crate) fn note_place(
    natives: &mut NativeIndex,
    alloc: Global,
    declarations: &KeyTable<Declaration>,
    place: usize,
) -> Result<(), OutOfMemory>
    ensures ok { OnOk result ((hash : ℕ) → noted natives.new hash ≡ noted natives.old hash ++ place_at (is_noted_by declarations.now.seeds hash) declarations.now.pairs place) }
    ensures err { OnErr result ((hash : ℕ) → noted natives.new hash ≡ noted natives.old hash) }
{
    let Some((key, _declaration)) = declarations.get_index(place) else {
        return Ok(());
    };
    match key.dynamic_hash(declarations.seeds()) {
        Some(hash) => natives.note(alloc, hash, place),
        None => Ok(()),
    }
}

/// Puts a declaration under a key of a table. Answers whether one stood there.
pub(crate) fn put_pair(
    table: &mut KeyTable<Declaration>,
    key: SharedKey,
    declaration: Declaration,
) -> Result<bool, DeclFault>
    ensures replaced { IfOk result (λ replaced. replaced ≡ is_some (lookup (key_eq key) table.old.pairs)) }
    ensures pairs { OnOk result (table.new ≡ record table.old { pairs = put key declaration table.old.pairs }) }
    ensures apart { OnOk result (HasOwnHashes table.old.seeds (keys_of (put key declaration table.old.pairs))) }
    ensures unchanged { OnErr result (table.new ≡ table.old) }
    ensures absent { OnErr result (lookup (key_eq key) table.old.pairs ≡ None) }
    ensures refused { IfErr result (λ fault. (clash : TableFault) × (fault ≡ collision clash) × IsRefusal table.old key clash) }
{
    match table.insert_shared(key, declaration) {
        Ok(old) => Ok(old.is_some()),
        Err(fault) => Err(DeclFault::from(fault)),
    }
}

impl Declarations {
    /// None, whose keys will be hashed under these seeds.
    pub fn new(alloc: Global, seeds: Seeds) -> Declarations
        ensures { result ≡ record { seeds = seeds; pairs = [] } }
    {
        Declarations {
            table: KeyTable::new(alloc, seeds),
            natives: NativeIndex::new(alloc),
        }
    }

    /// Where its memory comes from.
    pub fn allocator(&self) -> Global {
        self.natives.allocator()
    }

    /// The seeds under which keys are hashed.
    pub fn seeds(&self) -> Seeds
        ensures { result ≡ self.now.seeds }
    {
        self.table.seeds()
    }

    /// A filter that has a mark for the hash of each key.
    pub fn key_marks(&self) -> &BloomFilterU64<128>
        ensures { Covers 128 result.now self.now.seeds self.now.pairs }
    {
        self.table.marks()
    }

    /// Whether a script may be declared.
    pub fn may_have_script(&self) -> bool
        ensures { result ≡ false → HasNoScript self.now.pairs }
    {
        self.table.may_have_script()
    }

    /// The number of declarations.
    pub fn len(&self) -> usize
        ensures { result ≡ length self.now.pairs }
    {
        self.table.len()
    }

    /// The declarations with their keys, in order.
    pub fn iter(&self) -> Values<'_, u64, (SharedKey, Declaration)>
        ensures pairs { result ≡ self.now.pairs }
        ensures apart { HasOwnHashes self.now.seeds (keys_of self.now.pairs) }
    {
        self.table.iter()
    }

    /// The declaration under a key.
    pub fn get(&self, key: &Key) -> Option<&Declaration>
        ensures { option_copied result ≡ lookup (key_eq key.now) self.now.pairs }
    {
        self.table.get(key)
    }

    /// The declaration under a key whose hash is at hand.
    #[inline(always)]
    pub fn get_hashed(&self, key: &HashedKey) -> Option<&Declaration>
        ensures { option_copied result ≡ lookup (key_eq key.now) self.now.pairs }
    {
        self.table.get_hashed(key)
    }

    /// The script of a name and number of parameters: the untyped one, else the first typed one in order.
    pub fn get_script(&self, name: &Text, params: u64) -> Option<&SharedDef>
        ensures { option_copied result ≡ script_in name.now params self.now.pairs }
    {
        match untyped_script(&self.table, name, params) {
            Some(def) => Some(def),
            None => typed_script(&self.table, name, params),
        }
    }

    /// Whether a native that has a parameter of any type is declared under this name, each of whose types is
    /// the argument's kind, or, behind the first `exact` ones, `Dynamic`.
    pub fn may_match(&self, exact: usize, name: &Text, kinds: &[TypeTag]) -> bool
        ensures { result ≡ list_any (λ p. dynamic_matches exact name.now kinds.now p.0) self.now.pairs }
    {
        let hash = calc_untyped_fn_hash(self.seeds(), name, kinds.len() as u64);
        for place in self.natives.places(hash) {
            if self.matches_at(*place, exact, name, kinds) {
                return true;
            }
        }
        false
    }

    /// Whether the declaration at a place has such a key.
    fn matches_at(&self, place: usize, exact: usize, name: &Text, kinds: &[TypeTag]) -> bool
        ensures { result ≡ matches_at self.now.pairs exact name.now kinds.now place }
    {
        match self.table.get_index(place) {
            Some((key, _declaration)) => key.has_dynamic() && key.matches(exact, name, kinds),
            None => false,
        }
    }

    /// Puts a declaration under a key: an equal key keeps its place, else it goes last. Answers whether one
    /// stood there. A key that clashes with another one is refused.
    pub fn put(
        &mut self,
        alloc: Global,
        key: SharedKey,
        declaration: Declaration,
    ) -> Result<bool, DeclFault>
        ensures replaced { IfOk result (λ replaced. replaced ≡ is_some (lookup (key_eq key) self.old.pairs)) }
        ensures pairs { OnOk result (self.new ≡ record self.old { pairs = put key declaration self.old.pairs }) }
        ensures apart { OnOk result (HasOwnHashes self.old.seeds (keys_of (put key declaration self.old.pairs))) }
        ensures unchanged { OnErr result (self.new ≡ self.old) }
        ensures refused { IfErr result (λ fault. (clash : TableFault) × (fault ≡ collision clash) × IsRefusal self.old key clash) }
    {
        let place = self.table.len();
        match put_pair(&mut self.table, key, declaration) {
            Err(fault) => return Err(fault),
            Ok(true) => return Ok(true),
            Ok(false) => {}
        }
        match note_place(&mut self.natives, alloc, &self.table, place) {
            Ok(()) => Ok(false),
            Err(OutOfMemory) => {
                self.table.truncate(place);
                Err(DeclFault::OutOfMemory)
            }
        }
    }

    /// Puts declarations in, some in the place of those of equal keys, and others under keys that aren't
    /// there. A refusal changes nothing.
    pub fn grow(
        &mut self,
        alloc: Global,
        there: Vec<(SharedKey, Declaration)>,
        new: Vec<(SharedKey, Declaration)>,
    ) -> Result<(), DeclFault>
        requires there { AllByRecursion (λ p. is_some (lookup (key_eq p.0) self.old.pairs) ≡ true) there.items }
        requires new { AllByRecursion (λ p. lookup (key_eq p.0) self.old.pairs ≡ None) new.items }
        ensures ok { OnOk result (self.new ≡ record self.old { pairs = put_all there.items (put_all new.items self.old.pairs) }) }
        ensures clash { IfErr result (IsClash self.old.seeds (keys_of (put_all new.items self.old.pairs))) }
        ensures err { OnErr result (self.new ≡ self.old) }
    {
        grow(&mut self.table, &mut self.natives, alloc, there, new)
    }

    /// Sets the comments of the declaration under a key. Answers whether there is one.
    pub fn set_comments(
        &mut self,
        alloc: Global,
        key: &Key,
        comments: Texts,
    ) -> Result<bool, OutOfMemory>
        ensures answer { IfOk result (λ found. found ≡ is_some (lookup (key_eq key.now) self.old.pairs)) }
        ensures ok { OnOk result (self.new ≡ record self.old { pairs = comment_on key.now comments self.old.pairs }) }
        ensures err { OnErr result (self.new ≡ self.old) }
    {
        let found = comment_pair(&mut self.table, alloc, key, comments)?;
        Ok(found)
    }

    /// Equal declarations.
    pub fn dup(&self, alloc: Global) -> Result<Declarations, OutOfMemory>
        ensures { IfOk result (λ copy. copy ≡ self.now) }
    {
        Ok(Declarations {
            table: dup_declarations(alloc, &self.table)?,
            natives: self.natives.dup(alloc)?,
        })
    }
}

/// An equal declaration but for its comments.
fn commented(
    alloc: Global,
    declaration: &Declaration,
    comments: Texts,
) -> Result<Declaration, OutOfMemory>
    ensures { IfOk result (λ d. d ≡ commented comments declaration.now) }
{
    let mut metadata = declaration.metadata().dup(alloc)?;
    metadata.comments = comments;
    Ok(Declaration {
        func: declaration.func.dup(alloc)?,
        metadata: SharedMetadata::new(alloc, metadata)?,
    })
}

/// Sets the comments of the declaration under a key of a table. Answers whether there is one.
fn comment_pair(
    table: &mut KeyTable<Declaration>,
    alloc: Global,
    key: &Key,
    comments: Texts,
) -> Result<bool, OutOfMemory>
    ensures answer { IfOk result (λ found. found ≡ is_some (lookup (key_eq key.now) table.old.pairs)) }
    ensures ok { OnOk result (table.new ≡ record table.old { pairs = comment_on key.now comments table.old.pairs }) }
    ensures err { OnErr result (table.new ≡ table.old) }
{
    let declaration = match table.get(key) {
        Some(declaration) => commented(alloc, declaration, comments)?,
        None => return Ok(false),
    };
    let key = SharedKey::new(alloc, key.dup(alloc)?, table.seeds())?;
    match put_pair(table, key, declaration) {
        Ok(_replaced) => Ok(true),
        Err(_fault) => Err(OutOfMemory),
    }
}

/// An empty table under the same seeds, with room for as many declarations.
fn room_for(
    alloc: Global,
    table: &KeyTable<Declaration>,
) -> Result<KeyTable<Declaration>, OutOfMemory>
    ensures { IfOk result (λ copy. copy ≡ record { seeds = table.now.seeds; pairs = [] }) }
{
    let mut copy = KeyTable::new(alloc, table.seeds());
    copy.reserve(table.len())?;
    Ok(copy)
}

/// An equal table of declarations.
fn dup_declarations(
    alloc: Global,
    table: &KeyTable<Declaration>,
) -> Result<KeyTable<Declaration>, OutOfMemory>
    ensures { IfOk result (λ copy. copy ≡ table.now) }
{
    let mut copy = room_for(alloc, table)?;
    for (key, declaration) in table.iter() {
        copy_pair(alloc, &mut copy, key, declaration)?;
    }
    Ok(copy)
}

/// Puts an equal declaration under the same key.
fn copy_pair(
    alloc: Global,
    copy: &mut KeyTable<Declaration>,
    key: &SharedKey,
    declaration: &Declaration,
) -> Result<(), OutOfMemory>
    ensures { OnOk result (copy.new ≡ record copy.old { pairs = put key.now declaration.now copy.old.pairs }) }
{
    let declaration = declaration.dup(alloc)?;
    match put_pair(copy, key.dup(alloc)?, declaration) {
        Ok(_replaced) => Ok(()),
        Err(_fault) => Err(OutOfMemory),
    }
}
