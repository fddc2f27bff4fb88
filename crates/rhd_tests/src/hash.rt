//! Hashes worked out apart from this code, filters of two sizes, keys, and tables by key.

use crate::given::{CLASHING, SEEDS, is_text, native_key, script_key, text, texts};
use crate::must::{holds, must};
use rhd_hash::{
    BloomFilterU64, FnCallHashes, HashedKey, Key, KeyTable, Seeds, SharedKey, Steps,
    StraightHashMap, StraightHasher, StraightHasherBuilder, TableFault, UntypedHash, calc_fn_hash,
    calc_fn_hash_full, calc_native_fn_hash, calc_typed_method_hash, calc_untyped_fn_hash,
    calc_var_hash, get_hasher,
};
use rhd_value::{OutOfMemory, Text, Texts, TypeTag};
use std::alloc::Global;
use std::hash::{BuildHasher, DefaultHasher, Hash, Hasher};
use std::process::Abort;

/// Other seeds, and a mask of few bits.
const OTHERS: Seeds = Seeds {
    seed0: 1,
    seed1: 2,
    mask: 0xffff,
};

/// The path `a::b`.
fn path(alloc: Global) -> Texts {
    let mut path = texts(alloc, "a");
    let _ = path.push(text(alloc, "b"));
    path
}

/// The key of a native `f` of one integer.
fn native(alloc: Global) -> Key {
    native_key(alloc, "f", TypeTag::Int)
}

fn check_fn_hashes(rt: &impl Abort, f: &Text, path: &Texts) {
    let base = calc_fn_hash(SEEDS, &[], f, 1);
    holds(rt, base == 0xe74e627d86534bc6, "of a name");
    holds(rt, calc_untyped_fn_hash(SEEDS, f, 1) == base, "untyped");
    let other = calc_fn_hash(OTHERS, &[], f, 1);
    holds(rt, other == 0xeb4, "under other seeds");
    let pathed = calc_fn_hash(SEEDS, path.as_slice(), f, 1);
    holds(rt, pathed == 0x8100ead4778e8b04, "with a path");
    let full = calc_fn_hash_full(SEEDS, base, &[TypeTag::Int]);
    holds(rt, full == 0x270bfb10e3c24760, "with a type");
}

fn check_other_hashes(rt: &impl Abort, alloc: Global, f: &Text, path: &Texts) {
    let var = calc_var_hash(SEEDS, path.as_slice(), &text(alloc, "x"));
    holds(rt, var == 0xb094e74d6d89ddd2, "of a variable");
    let custom = calc_native_fn_hash(SEEDS, &[], f, &[TypeTag::Custom(3)]);
    holds(rt, custom == 0xcd68947d42837e58, "of a custom type");
    let typed = calc_typed_method_hash(SEEDS, 0xe74e627d86534bc6, &text(alloc, "i64"));
    holds(rt, typed == 0xf8d4cbf3280027e1, "of a method");
    let key = native(alloc);
    holds(rt, key.mixed(SEEDS) == 0x270bfb10e3c24760, "of a key");
    holds(rt, key.untyped(SEEDS) == 0xe74e627d86534bc6, "untyped");
}

#[test]
fn hashes(rt: HostRuntime) {
    let alloc = rt.alloc();
    let f = text(alloc, "f");
    let path = path(alloc);
    check_fn_hashes(&rt, &f, &path);
    check_other_hashes(&rt, alloc, &f, &path);
}

#[test]
fn mixers(rt: HostRuntime) {
    holds(&rt, Seeds::default() == SEEDS, "seeds where none are set");
    let mut mixer = get_hasher(SEEDS);
    holds(&rt, mixer.finish() == 0xcbf29ce44fd0bfc1, "of no byte");
    mixer.write_u8(0x61);
    holds(&rt, mixer.finish() == 0xaf63dc4c296230c0, "of a byte");
    let mut mixer = get_hasher(SEEDS);
    mixer.write_text(&text(rt.alloc(), "f"));
    holds(&rt, mixer.finish() == 0x529a4adcdd6f2c7a, "of a text");
    let mut mixer = get_hasher(SEEDS);
    mixer.write_count(1);
    holds(&rt, mixer.finish() == 0x89cd312994e7de8d, "of a count");
}

#[test]
fn filters(rt: HostRuntime) {
    let mut small = BloomFilterU64::<1>::new();
    small.mark(0);
    holds(&rt, !small.is_absent(8) && small.is_absent(1), "one mark");
    holds(&rt, !small.is_empty(), "no more empty");
    let mut large = BloomFilterU64::<64>::new();
    holds(&rt, large.is_absent_and_set(512), "absent");
    holds(&rt, !large.is_absent_and_set(512), "marked by then");
    holds(&rt, !large.is_absent(0), "by its rest");
    large.clear();
    holds(&rt, large.is_absent(0) && large.is_empty(), "cleared");
}

/// What a hasher of std makes of a value.
fn hash_of<T: Hash>(value: &T) -> u64 {
    let mut hasher = DefaultHasher::new();
    value.hash(&mut hasher);
    hasher.finish()
}

#[test]
fn filters_are_joined(rt: HostRuntime) {
    let mut first = BloomFilterU64::<8>::default();
    first.mark(1);
    let mut second = BloomFilterU64::<8>::default();
    second.mark(2);
    let copy = must(&rt, first.clone(), "memory");
    holds(&rt, copy == first && copy != second, "equal");
    holds(&rt, hash_of(&copy) == hash_of(&first), "of one hash");
    first += &second;
    holds(
        &rt,
        !first.is_absent(1) && !first.is_absent(2),
        "both marks",
    );
    let other = must(&rt, second.clone(), "memory");
    let sum = copy + other;
    holds(&rt, sum == first, "a sum");
    second += sum;
    holds(&rt, second == first, "taken in");
}

#[test]
fn keys_are_read(rt: HostRuntime) {
    let alloc = rt.alloc();
    let key = native(alloc);
    holds(
        &rt,
        key.name().as_str() == "f" && key.num_params() == 1,
        "of f",
    );
    let name = is_text(key.native_name(), "f");
    holds(&rt, name && !key.has_dynamic(), "a native of no other type");
    holds(&rt, !key.is_script() && !key.is_typed(), "and no script");
    let f = text(alloc, "f");
    holds(&rt, key.matches(0, &f, &[TypeTag::Int]), "matches");
    holds(&rt, !key.matches(0, &f, &[TypeTag::Bool]), "no other kind");
    drop(key);
}

#[test]
fn keys_are_changed(rt: HostRuntime) {
    let alloc = rt.alloc();
    let mut key = native(alloc);
    key.set_type(0, TypeTag::Dynamic);
    holds(&rt, key.has_dynamic(), "of any type");
    key.set_type(1, TypeTag::Int);
    holds(&rt, key.num_params() == 1, "no type is put in");
    drop(key);
    let mut script = script_key(alloc, "f");
    script.set_type(0, TypeTag::Dynamic);
    let same = script_key(alloc, "f");
    holds(&rt, script == same, "a script has no types");
    drop(same);
    drop(script);
}

#[test]
fn keys_are_told_apart(rt: HostRuntime) {
    let alloc = rt.alloc();
    let any = native_key(alloc, "f", TypeTag::Dynamic);
    holds(&rt, any.has_dynamic(), "of any type");
    drop(any);
    let script = script_key(alloc, "f");
    holds(&rt, script.is_script(), "a script");
    holds(&rt, script.native_name().is_none(), "and no native");
    drop(script);
}

#[test]
fn keys_are_copied(rt: HostRuntime) {
    let alloc = rt.alloc();
    let key = script_key(alloc, "f");
    let dup = must(&rt, key.dup(alloc), "a key is copied");
    holds(&rt, dup == key, "equal");
    holds(&rt, hash_of(&dup) == hash_of(&key), "of one hash");
    drop(dup);
    let pathed = must(&rt, key.dup_at(alloc, &path(alloc)), "with a path");
    holds(&rt, pathed != key, "another");
    drop(pathed);
    let other = script_key(alloc, "g");
    holds(&rt, hash_of(&other) != hash_of(&key), "of another hash");
    drop(other);
    drop(key);
}

/// What a pair that goes in takes the place of, if it goes in at all.
fn put(table: &mut KeyTable<u32>, key: Key, value: u32) -> Option<Option<u32>> {
    table.insert(key, value).ok()
}

#[test]
fn tables_are_filled(rt: HostRuntime) {
    let alloc = rt.alloc();
    let mut table = KeyTable::<u32>::new(alloc, SEEDS);
    holds(&rt, table.seeds() == SEEDS, "under these seeds");
    let first = put(&mut table, script_key(alloc, "f"), 1);
    holds(&rt, first == Some(None), "a first pair");
    let second = put(&mut table, script_key(alloc, "g"), 2);
    holds(&rt, second == Some(None), "a second pair");
    let again = put(&mut table, script_key(alloc, "f"), 3);
    holds(
        &rt,
        again == Some(Some(1)) && table.len() == 2,
        "an equal key",
    );
    drop(table);
}

/// Whether a pair is 3 under this key.
fn is_pair(pair: Option<(&Key, &u32)>, key: &Key) -> bool {
    match pair {
        Some((held, value)) => *held == *key && *value == 3,
        None => false,
    }
}

#[test]
fn tables_are_read(rt: HostRuntime) {
    let alloc = rt.alloc();
    let mut table = KeyTable::<u32>::new(alloc, SEEDS);
    let _ = put(&mut table, script_key(alloc, "f"), 3);
    let key = script_key(alloc, "f");
    holds(&rt, table.get(&key) == Some(&3), "by key");
    let held = table.get_by_hash(key.mixed(SEEDS));
    holds(&rt, is_pair(held, &key), "by hash");
    let held = table.get_index(0);
    holds(&rt, is_pair(held, &key), "by place");
    for (_key, value) in table.iter() {
        holds(&rt, *value == 3, "each");
    }
    table.truncate(0);
    holds(&rt, table.get(&key).is_none(), "cut off");
    drop(key);
    drop(table);
}

/// Whether a fault tells of a key without parameters, and of another of one.
fn is_clash(fault: &TableFault) -> bool {
    match fault {
        TableFault::Clash { held, new } => {
            held.key().num_params() == 0 && new.key().num_params() == 1
        }
        TableFault::OutOfMemory => false,
    }
}

/// Why a pair isn't put in. Stops the test where it is.
fn refused(rt: &impl Abort, put: Result<Option<u32>, TableFault>) -> TableFault {
    match put {
        Ok(_) => panic!(rt; "a key that clashes"),
        Err(fault) => fault,
    }
}

#[test]
fn clashing_keys_are_refused(rt: HostRuntime) {
    let alloc = rt.alloc();
    let mut clashing = KeyTable::<u32>::new(alloc, CLASHING);
    let first = put(&mut clashing, script_key(alloc, "f"), 1);
    holds(&rt, first == Some(None), "a first pair");
    let fault = refused(&rt, clashing.insert(native(alloc), 0));
    holds(&rt, is_clash(&fault), "a clash");
    drop(fault);
    holds(&rt, clashing.len() == 1, "refused");
    drop(clashing);
}

#[test]
fn faults_are_copied(rt: HostRuntime) {
    let alloc = rt.alloc();
    let held = SharedKey::new(alloc, script_key(alloc, "f"), SEEDS);
    let new = SharedKey::new(alloc, native(alloc), SEEDS);
    let fault = TableFault::Clash {
        held: must(&rt, held, "a shared key"),
        new: must(&rt, new, "another"),
    };
    let dup = must(&rt, fault.dup(alloc), "a fault is copied");
    holds(&rt, is_clash(&dup), "the same fault");
    drop(dup);
    drop(fault);
    let memory = TableFault::from(OutOfMemory);
    holds(&rt, !is_clash(&memory), "want of memory");
    drop(memory);
}

/// Whether a shared key has the hash of its key, under its own seeds and under others.
fn has_hashes(shared: &SharedKey) -> bool {
    let (key, hashed) = (shared.key(), shared.hashed());
    hashed.hash_under(SEEDS) == key.mixed(SEEDS) && hashed.hash_under(OTHERS) == key.mixed(OTHERS)
}

#[test]
fn shared_keys_are_put_in(rt: HostRuntime) {
    let alloc = rt.alloc();
    let mut table = KeyTable::<u32>::new(alloc, SEEDS);
    let key = script_key(alloc, "f");
    let hash = key.mixed(SEEDS);
    let known = SharedKey::known(alloc, key, SEEDS, hash);
    let known = must(&rt, known, "a shared key");
    holds(&rt, has_hashes(&known), "its hash at hand");
    let other = SharedKey::new(alloc, script_key(alloc, "g"), OTHERS);
    let other = must(&rt, other, "a shared key");
    holds(&rt, has_hashes(&other), "its hash under other seeds");
    let owner = must(&rt, other.dup(alloc), "one more owner");
    holds(&rt, *owner.key() == *other.key(), "of the same key");
    let first = table.insert_shared(known, 1);
    holds(&rt, first.is_ok_and(|old| old.is_none()), "a first pair");
    let second = table.insert_shared(owner, 2);
    holds(&rt, second.is_ok_and(|old| old.is_none()), "of other seeds");
    let again = table.insert_shared(other, 3);
    holds(&rt, again.is_ok_and(|old| old == Some(2)), "an equal key");
    let key = script_key(alloc, "g");
    let hashed = HashedKey::known(&key, SEEDS, key.mixed(SEEDS));
    holds(&rt, table.get_hashed(&hashed) == Some(&3), "by its hash");
    drop(key);
    drop(table);
}

/// The hash of a text of so many bytes, by its bytes one by one.
fn hash_of_bytes(len: u64, text: &Text) -> u64 {
    let mut mixer = get_hasher(SEEDS);
    for byte in len.to_le_bytes() {
        mixer.write_u8(byte);
    }
    for byte in text.as_str().as_bytes() {
        mixer.write_u8(*byte);
    }
    mixer.finish()
}

#[test]
fn counts_are_mixed_as_their_bytes(rt: HostRuntime) {
    let alloc = rt.alloc();
    for count in [0, 1, 255, 256, 65_536, u64::MAX] {
        let mut mixer = get_hasher(SEEDS);
        mixer.write_count(count);
        let hash = hash_of_bytes(count, &text(alloc, ""));
        holds(&rt, mixer.finish() == hash, "a count");
    }
    let mut mixer = get_hasher(SEEDS);
    mixer.write_text(&text(alloc, "text"));
    let hash = hash_of_bytes(4, &text(alloc, "text"));
    holds(&rt, mixer.finish() == hash, "a text");
}

#[test]
fn hashes_are_at_hand(rt: HostRuntime) {
    let alloc = rt.alloc();
    let mut table = KeyTable::<u32>::new(alloc, SEEDS);
    let _ = put(&mut table, script_key(alloc, "f"), 3);
    let key = script_key(alloc, "f");
    let hashed = HashedKey::new(&key, SEEDS);
    holds(&rt, *hashed.key() == key, "of the key");
    holds(
        &rt,
        hashed.hash_under(SEEDS) == key.mixed(SEEDS),
        "its hash",
    );
    holds(&rt, table.get_hashed(&hashed) == Some(&3), "by its hash");
    let other = HashedKey::new(&key, CLASHING);
    holds(&rt, table.get_hashed(&other) == Some(&3), "of other seeds");
    let name = UntypedHash::new(&key, SEEDS);
    holds(&rt, name.under(&key, SEEDS) == key.untyped(SEEDS), "a name");
    let hash = key.untyped(CLASHING);
    holds(&rt, name.under(&key, CLASHING) == hash, "of other seeds");
    drop(key);
    drop(table);
}

#[test]
fn tables_mark_their_keys(rt: HostRuntime) {
    let alloc = rt.alloc();
    let mut table = KeyTable::<u32>::new(alloc, SEEDS);
    let none = native(alloc);
    let hash = none.mixed(SEEDS);
    holds(&rt, table.marks().is_absent(hash), "nothing is marked");
    let _ = put(&mut table, none, 1);
    holds(&rt, !table.marks().is_absent(hash), "the key is marked");
    holds(&rt, !table.may_have_script(), "a native is no script");
    let _ = put(&mut table, script_key(alloc, "f"), 2);
    holds(&rt, table.may_have_script(), "a script");
    let mut wide = BloomFilterU64::<256>::new();
    table.mark_keys(&mut wide);
    holds(&rt, !wide.is_absent(hash), "marked in another filter");
    drop(table);
}

#[test]
fn steps_are_counted(rt: HostRuntime) {
    let mut steps = Steps::new();
    steps.raise();
    holds(&rt, steps.count() == 1, "one step");
}

#[test]
fn call_hashes_are_read(rt: HostRuntime) {
    let both = FnCallHashes::from_hash(1);
    holds(
        &rt,
        both.native() == 1 && !both.is_native_only(),
        "one hash",
    );
    let native = FnCallHashes::from_native_only(7);
    holds(&rt, native.is_native_only() && native != both, "of natives");
    let two = FnCallHashes::from_script_and_native(1, 2);
    assert!(&rt; !two.is_native_only());
    holds(&rt, two.script() == 1, "of scripts");
    let shown = must(
        &rt,
        format!(in rt.alloc(); "{both:?} {native:?} {two:?}"),
        "memory",
    );
    holds(&rt, shown.as_str() == "1 7 (native only) (1, 2)", "as text");
}

#[test]
fn hashes_stay_as_they_are(rt: HostRuntime) {
    let mut hasher: StraightHasher = StraightHasherBuilder.build_hasher();
    hasher.write_u64(5);
    holds(&rt, hasher.finish() == 5, "a number");
    hasher.write(&[6, 0, 0, 0, 0, 0, 0, 0]);
    holds(&rt, hasher.finish() == 6, "eight bytes");
    hasher.write(&[7]);
    holds(&rt, hasher.finish() == 6, "bytes of another count");
    let mut map = StraightHashMap::<u32>::with_hasher(rt.alloc(), StraightHasherBuilder);
    must(&rt, map.insert(5, 1), "memory");
    holds(&rt, map.get(&5) == Some(&1), "a map");
}
