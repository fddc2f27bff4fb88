//! Laws of hashes, filters and tables.

ghost use Rattle.std.specs.Prelude.{◌≡◌, ◌≢◌, ◌↔◌, ℕ, ◌<◌, ◌/◌, ◌%◌, ◌++◌, ◌∷◌, [], List, length, bit_xor, Option, Some, None, true};
ghost use Rattle.std.specs.List.{AllByRecursion, Contains};
ghost use Rattle.std.specs.Map.{lookup, keys_of};
ghost use Rattle.rhd_value.specs.Tree.{Bytes};
ghost use Rattle.rhd_value.specs.declared.tag.TypeTag.{TypeTag};
ghost use Rattle.rhd_hash.specs.declared.key.Key.{Key};
ghost use Rattle.rhd_hash.specs.declared.key.Key.TheVariants.{Script, Typed, Native};
ghost use Rattle.rhd_hash.specs.declared.mixer.Mixer.{Mixer};
ghost use Rattle.rhd_hash.specs.declared.mixer.Seeds.{Seeds};
ghost use Rattle.rhd_hash.specs.Keys.{key_eq};
ghost use Rattle.rhd_hash.specs.Mix.{mix, fresh, after, answer};
ghost use Rattle.rhd_hash.specs.Parts.{path_of, types_part, this_part, mixed};
ghost use Rattle.rhd_hash.specs.Filter.{slot, is_marked, Marks, Joins};
ghost use Rattle.rhd_hash.specs.Table.{HasOwnHashes, first_hashed};
ghost use Rattle.rhd_hash.specs.PutIn.{put_in};
ghost use Rattle.rhd_hash.specs.FirstPairs.{NoneWith, IsFirstWith, IsPut};
ghost use Rattle.rhd_hash.specs.Apart.{AreApart};

/// A mixer takes bytes in pieces as it takes them at once, and answers the hash of all.
pub fn a_mixer_answers_for_its_bytes()
    ensures pieces { (m : Mixer) (xs ys : List ℕ) → after (after m xs) ys ≡ after m (xs ++ ys) }
    ensures answers { (seeds : Seeds) (bytes : List ℕ) → answer (after (fresh seeds) bytes) ≡ mix seeds bytes }
{}

/// The hash of a native's key, and of a typed script's, is that of the script's key with its own
/// part mixed in. Keys of paths that differ in the first name alone are one, and those of an empty
/// path are others.
pub fn a_hash_is_made_of_parts()
    ensures native { (s : Seeds) (path : Option (List Bytes)) (name : Bytes) (types : List TypeTag)
        → mixed s (Native path name types) ≡ bit_xor (mix s (types_part types)) (mixed s (Script path name (length types))) }
    ensures typed { (s : Seeds) (path : Option (List Bytes)) (name : Bytes) (params : ℕ) (this_type : Bytes) → mixed s (Typed path name params this_type) ≡ bit_xor (mix s (this_part this_type)) (mixed s (Script path name params)) }
    ensures first { (one other : Bytes) (names : List Bytes) → path_of (one ∷ names) ≡ path_of (other ∷ names) }
    ensures empty { (one : Bytes) (names : List Bytes) → path_of (one ∷ names) ≢ path_of [] }
{}

/// Two numbers have one slot exactly where they have one bit of one byte.
pub fn a_slot_is_a_bit()
    ensures { (size v w : ℕ) → 0 < size → (slot size v ≡ slot size w) ↔ (((v / 8) % size ≡ (w / 8) % size) × (v % 8 ≡ w % 8)) }
{}

/// What was marked stays so, whatever else is marked or joined to it.
pub fn a_marked_number_stays_marked()
    ensures itself { (size value : ℕ) (old new : List ℕ) → Marks size value old new → is_marked size new value ≡ true }
    ensures others { (size value other : ℕ) (old new : List ℕ) → Marks size value old new → is_marked size old other ≡ true → is_marked size new other ≡ true }
    ensures first { (size v : ℕ) (a b sum : List ℕ) → Joins size a b sum → is_marked size a v ≡ true → is_marked size sum v ≡ true }
    ensures second { (size v : ℕ) (a b sum : List ℕ) → Joins size a b sum → is_marked size b v ≡ true → is_marked size sum v ≡ true }
{}

/// Keys have hashes of their own exactly where all differ and none clash.
pub fn keys_of_a_table_are_apart()
    ensures { (seeds : Seeds) (keys : List Key) → HasOwnHashes seeds keys ↔ AreApart seeds keys }
{}

/// A key finds the first value that stands under it, and nothing exactly where none does.
pub fn a_key_finds_its_value<V>()
    ensures found { (ps : List (Key × V)) (key : Key) (value : V) → (lookup (key_eq key) ps ≡ Some value) ↔ IsFirstWith key value ps }
    ensures missing { (ps : List (Key × V)) (key : Key) → (lookup (key_eq key) ps ≡ None) ↔ NoneWith key ps }
{}

/// In a table, a hash finds the one pair whose key has it, and nothing exactly where none has.
pub fn a_hash_finds_its_pair<V>()
    ensures found { (seeds : Seeds) (ps : List (Key × V)) (hash : ℕ) (p : Key × V) → HasOwnHashes seeds (keys_of ps) → (first_hashed (mixed seeds) hash ps ≡ Some p) ↔ (Contains ps p × (mixed seeds p.0 ≡ hash)) }
    ensures missing { (seeds : Seeds) (ps : List (Key × V)) (hash : ℕ) → (first_hashed (mixed seeds) hash ps ≡ None) ↔ AllByRecursion (λ p. mixed seeds p.0 ≢ hash) ps }
{}

/// A value that is put in is found by its key. All others stay as they are, in order.
pub fn a_value_leaves_the_others<V>()
    ensures put { (ps : List (Key × V)) (key : Key) (value : V) → IsPut key value ps (put_in key_eq key value ps) }
    ensures itself { (ps : List (Key × V)) (key : Key) (value : V) → lookup (key_eq key) (put_in key_eq key value ps) ≡ Some value }
    ensures others { (ps : List (Key × V)) (key other : Key) (value : V) → other ≢ key → lookup (key_eq other) (put_in key_eq key value ps) ≡ lookup (key_eq other) ps }
{}
