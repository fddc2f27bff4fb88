//! Keys of functions, their hashes, tables by key, filters, and the count of look-ups.
#![tactic(auto)]

mod call_hashes;
mod fault;
mod filter;
mod hashed;
mod hashing;
mod key;
mod law;
mod mixer;
mod shared_key;
mod steps;
mod straight;
mod table;

pub use call_hashes::FnCallHashes;
pub use fault::TableFault;
pub use filter::BloomFilterU64;
pub use hashed::{HashedKey, UntypedHash};
pub use hashing::{
    calc_fn_hash, calc_fn_hash_full, calc_native_fn_hash, calc_typed_method_hash,
    calc_untyped_fn_hash, calc_var_hash,
};
pub use key::Key;
pub use law::{
    a_hash_finds_its_pair, a_hash_is_made_of_parts, a_key_finds_its_value,
    a_marked_number_stays_marked, a_mixer_answers_for_its_bytes, a_slot_is_a_bit,
    a_value_leaves_the_others, keys_of_a_table_are_apart,
};
pub use mixer::{Mixer, Seeds, get_hasher};
pub use shared_key::SharedKey;
pub use steps::Steps;
pub use straight::{StraightHashMap, StraightHasher, StraightHasherBuilder};
pub use table::KeyTable;
