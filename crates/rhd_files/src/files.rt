//! Files, known by a map from path to text and by a count of faults.

ghost use Rattle.std.specs.Prelude.{◌≡◌, ◌≤◌, [], length, if◌then◌else◌, is_ok, IfOk};
ghost use Rattle.std.specs.Option.{option_copied};
ghost use Rattle.rhd_files.specs.Files.{IsAscending, Reads, at_path, with_text, next_answer, after_read};

use rhd_value::{OutOfMemory, Text};
use std::alloc::Global;
use std::collections::BTreeMap;
use std::collections::btree_map::Iter;
use std::marker::Model;

/// What came of a read: the text, or that there is no file, or that the file could not be read.
#[derive(Drop)]
pub enum FileAnswer {
    Found(Text),
    NoFile,
    Failed,
}

/// Files that are read by path.
pub trait Files: Drop {
    ghost use Rattle.std.specs.Prelude.{ℕ, List};
    ghost use Rattle.rhd_value.specs.Tree.{Bytes};

    /// The text at each path.
    ghost texts: { Self → List (Bytes × Bytes) };

    /// How many reads failed.
    ghost faults: { Self → ℕ };

    /// Reads the file at a path. It is found where there is a text, and then that text is handed out; no
    /// file is exactly where there is none. A read may fail where there is a text, and is then counted;
    /// no other is. The texts stay, and the count never falls. Fails where memory runs out.
    fn read(&mut self, alloc: Global, path: &Text) -> Result<FileAnswer, OutOfMemory>
        ensures answer { IfOk result (Reads (texts self.old) (faults self.old) (faults self.new) path.now) }
        ensures texts { texts self.new ≡ texts self.old }
        ensures rises { faults self.old ≤ faults self.new };
}

/// Texts by path. Contracts see the list of paths in ascending order, each with its text.
#[derive(Drop)]
pub struct FileTable {
    texts: BTreeMap<Text, Text>,
}

impl Model for FileTable {
    ghost use Rattle.std.specs.Prelude.{List};
    ghost use Rattle.rhd_value.specs.Tree.{Bytes};

    ghost Value = { List (Bytes × Bytes) };

    ghost view = { λ a. a.texts.entries };
}

impl FileTable {
    /// No texts.
    pub fn new(alloc: Global) -> FileTable
        ensures { result ≡ [] }
    {
        FileTable {
            texts: BTreeMap::new(alloc),
        }
    }

    /// Puts a text at a path, in the place of an equal path's. Where memory runs out, all is as it was.
    pub fn insert(&mut self, path: Text, text: Text) -> Result<(), OutOfMemory>
        ensures { self.new ≡ (if is_ok result then with_text path text self.old else self.old) }
    {
        self.texts.insert(path, text)?;
        Ok(())
    }

    /// The text at a path; none where there is nothing.
    pub fn get(&self, path: &Text) -> Option<&Text>
        ensures { option_copied result ≡ at_path path.now self.now }
    {
        self.texts.get(path)
    }

    /// The number of paths.
    pub fn len(&self) -> usize
        ensures { result ≡ length self.now }
    {
        self.texts.len()
    }

    /// The paths in ascending order, each with its text.
    pub fn iter(&self) -> Iter<'_, Text, Text>
        ensures entries { result ≡ self.now }
        ensures ascending { IsAscending self.now }
    {
        self.texts.iter()
    }

    /// An equal one. Fails where memory runs out.
    pub fn dup(&self, _alloc: Global) -> Result<FileTable, OutOfMemory>
        ensures { IfOk result (λ files. files ≡ self.now) }
    {
        Ok(FileTable {
            texts: self.texts.clone()?,
        })
    }
}

/// Files in memory, some of whose reads are to fail. Contracts see the texts, which calls are to fail,
/// and how many calls and how many faults there were.
#[derive(Drop)]
pub struct MemFiles {
    files: FileTable,
    fails: Vec<u64>,
    calls: u64,
    faults: u64,
}

impl Model for MemFiles {
    ghost use Rattle.rhd_files.specs.MemState.{MemState};

    ghost Value = { MemState };

    ghost view = { λ a. record { texts = a.files; fails = a.fails.items; calls = a.calls; faults = a.faults } };
}

impl MemFiles {
    /// Files with these texts. A call of `read` is to fail where its number is in the list; the first
    /// call is number 1.
    pub fn new(files: FileTable, fails: Vec<u64>) -> MemFiles
        ensures { result ≡ record { texts = files; fails = fails.items; calls = 0; faults = 0 } }
    {
        MemFiles {
            files,
            fails,
            calls: 0,
            faults: 0,
        }
    }
}

impl Files for MemFiles {
    ghost texts = { λ it. it.texts };

    ghost faults = { λ it. it.faults };

    /// A call's number is the count of calls so far and one; at the greatest `u64` it stays there. Where
    /// its path has a text, the call fails exactly if its number is in the list.
    fn read(&mut self, alloc: Global, path: &Text) -> Result<FileAnswer, OutOfMemory>
        ensures answer { IfOk result (Reads self.old.texts self.old.faults self.new.faults path.now) }
        ensures texts { self.new.texts ≡ self.old.texts }
        ensures rises { self.old.faults ≤ self.new.faults }
        ensures exact { IfOk result (λ answer. answer ≡ next_answer self.old path.now) }
        ensures after { self.new ≡ after_read self.old path.now }
    {
        self.calls = self.calls.saturating_add(1);
        let Some(text) = self.files.get(path) else {
            return Ok(FileAnswer::NoFile);
        };
        if self.fails.contains(&self.calls) {
            self.faults = self.faults.saturating_add(1);
            return Ok(FileAnswer::Failed);
        }
        Ok(FileAnswer::Found(text.dup(alloc)?))
    }
}
