//! What a call below a path means: one module is searched, by the further names of the path.

ghost use Rattle.std.specs.Prelude.{◌≡◌, ◌≤◌, ◌+◌, ◌++◌, ◌∷◌, [], true, IfOk, IfSome, None, Some, OnOk, length, map};
ghost use Rattle.std.specs.Option.{option_map};
ghost use Rattle.rhd_value.specs.Firsts.{first_of};
ghost use Rattle.rhd_value.specs.Kinds.{tag_of};
ghost use Rattle.rhd_func.specs.Shapes.{all_args};
ghost use Rattle.rhd_hash.specs.Keys.{is_script_key};
ghost use Rattle.rhd_hash.specs.declared.key.Key.TheVariants as keys;
ghost use Rattle.rhd_engine.specs.Held.{func_held, named_held};
ghost use Rattle.rhd_engine.specs.Of.{lists_of};
ghost use Rattle.rhd_dispatch.specs.Patterns.{patterns};
ghost use Rattle.rhd_dispatch.specs.Picks.{root_of, after_root, asks_below, looked_in, pick_qualified};
ghost use Rattle.rhd_dispatch.specs.Searched.{pick_at};
ghost use Rattle.rhd_dispatch.specs.Walks.{rooted, picked, pick_below};

use crate::filters::tree_may_have;
use crate::keys::kinds_of;
use crate::look::Look;
use crate::patterns::find_typed;
use crate::root::{Root, find_root};
use crate::search::{Found, look_tree, pick_found};
use rhd_call::Pick;
use rhd_engine::{Engine, GlobalRuntimeState};
use rhd_func::CallShape;
use rhd_hash::{HashedKey, Key, Steps, UntypedHash};
use rhd_value::{OutOfMemory, Text, Texts, TypeTag, Types};
use std::alloc::Global;
use std::marker::Model;

/// The questions of a call below a path: for a script by the number of all arguments, and then for a native
/// by their kinds. Contracts see the names of the path behind the root's, the name and the kinds.
pub struct QualifiedAsk {
    script: Key,
    /// It has the types of the pattern in hand.
    native: Key,
}

/// A function of its own, so that what drops the questions doesn't ask what their keys are.
impl Drop for QualifiedAsk {
    fn drop(self) {
        let QualifiedAsk {
            script: _script,
            native: _native,
        } = self;
    }
}

impl Model for QualifiedAsk {
    ghost use Rattle.rhd_dispatch.specs.Picks.{AskedBelow, asked_below, IsAskBelow};

    ghost Value = { AskedBelow };

    ghost view = { λ a. asked_below a.native };

    ghost invariant = { λ a. IsAskBelow a.script a.native };
}

impl QualifiedAsk {
    /// Those of a call with arguments of these kinds, an object counted.
    pub fn new(
        alloc: Global,
        path: &[Text],
        name: &Text,
        kinds: &[TypeTag],
    ) -> Result<QualifiedAsk, OutOfMemory>
        ensures { IfOk result (λ asks. asks ≡ record { path = after_root path.now; name = name.now; kinds = kinds.now }) }
    {
        let names = after_root(alloc, path)?;
        Ok(QualifiedAsk {
            script: Key::Script {
                path: Some(names.dup(alloc)?),
                name: name.dup(alloc)?,
                params: kinds.len() as u64,
            },
            native: Key::Native {
                path: Some(names),
                name: name.dup(alloc)?,
                types: Types::from_slice(alloc, kinds)?,
            },
        })
    }
}

impl<'a> Look for Root<'a> {
    type Found = Found<'a>;

    ghost pick = { λ f. picked f.layer f.func.now f.place.now };

    ghost look = { λ s key. pick_at key (rooted s.layer s.place.now) };

    ghost modules = { λ s. 1 };

    fn find(self, key: &Key, steps: &mut Steps) -> Option<Found<'a>> {
        let key = HashedKey::new(key, self.place.seeds());
        look_tree(self.place, self.layer, &key, steps)
    }

    fn may_match(self, hash: UntypedHash, _place: usize, key: &Key) -> bool {
        tree_may_have(self.place, hash, key)
    }
}

/// The names of a path behind the first.
fn after_root(alloc: Global, path: &[Text]) -> Result<Texts, OutOfMemory>
    ensures { IfOk result (λ names. names ≡ after_root path.now) }
{
    let mut names = Texts::new(alloc);
    match path {
        [] => {}
        [_name, rest @ ..] => {
            for name in rest {
                names.push(name.dup(alloc)?)?;
            }
        }
    }
    Ok(names)
}

/// What one tree has under a script's key. It isn't even asked where it has no script.
fn look_for_script<'a>(root: Root<'a>, key: &Key, steps: &mut Steps) -> Option<Found<'a>>
    requires { is_script_key key.now ≡ true }
    ensures found { option_map (λ f. picked f.layer f.func.now f.place.now) result ≡ pick_at key.now (rooted root.entry.layer root.entry.place.now) }
    ensures steps { steps.new ≤ steps.old + 1 }
{
    if !root.place.tree_may_have_script() {
        return None;
    }
    root.find(key, steps)
}

/// What one tree has for the questions below a path.
fn find_in<'a>(root: Root<'a>, asks: &mut QualifiedAsk, steps: &mut Steps) -> Option<Found<'a>>
    ensures found { option_map (λ f. picked f.layer f.func.now f.place.now) result ≡ pick_below asks.old (rooted root.entry.layer root.entry.place.now) }
    ensures kept { asks.new ≡ asks.old }
    ensures steps { steps.new ≤ steps.old + (1 + length (patterns asks.old.kinds)) }
{
    let script = look_for_script(root, &asks.script, steps);
    if script.is_some() {
        return script;
    }
    find_typed(root, root.place.seeds(), &mut asks.native, steps)
}

/// What answers the questions below their path. The module in which it begins is searched alone. It makes at
/// most one look-up for each key, and takes no memory.
pub fn resolve_qualified<'a>(
    engine: &'a Engine,
    state: &'a GlobalRuntimeState,
    path: &[Text],
    asks: &mut QualifiedAsk,
    steps: &mut Steps,
) -> Option<Found<'a>>
    requires { asks.old.path ≡ after_root path.now }
    ensures found { option_map (λ f. picked f.layer f.func.now f.place.now) result ≡ first_of (looked_in path.now (root_of (lists_of info engine.now) state.now.imports path.now)) (asks_below asks.old) }
    ensures kept { asks.new ≡ asks.old }
    ensures steps { steps.new ≤ steps.old + (1 + length (patterns asks.old.kinds)) }
{
    match find_root(engine, state, path) {
        Some(root) => find_in(root, asks, steps),
        None => None,
    }
}

/// The function that a call below a path means. The module in which the path begins is searched alone: for
/// a script by the number of all arguments, an object counted, and then for a native by the patterns of
/// their kinds. It makes at most one look-up for each, also where memory runs out.
pub fn resolve_qualified_call(
    alloc: Global,
    engine: &Engine,
    state: &GlobalRuntimeState,
    path: &Texts,
    name: &Text,
    shape: &CallShape,
    steps: &mut Steps,
) -> Result<Option<Pick>, OutOfMemory>
    requires { named_held (length engine.now.natives.items.items) state.now.imports ≡ true }
    ensures pick { IfOk result (λ pick. pick ≡ pick_qualified (lists_of info engine.now) state.now.imports path.now name.now shape.now) }
    ensures held { IfOk result (λ pick. IfSome pick (λ p. func_held (length engine.now.natives.items.items) p.func ≡ true)) }
    ensures steps { steps.new ≤ steps.old + (1 + length (patterns (map tag_of (all_args shape.now)))) }
{
    let kinds = kinds_of(alloc, shape)?;
    let mut asks = QualifiedAsk::new(alloc, path.as_slice(), name, kinds.as_slice())?;
    let found = resolve_qualified(engine, state, path.as_slice(), &mut asks, steps);
    pick_found(alloc, found)
}
