//! Paths, and files in memory.

use crate::given::text;
use crate::must::{holds, must};
use rhd_files::{
    FileAnswer, FileTable, Files, MemFiles, file_path, is_absolute, join, parent, with_extension,
};
use rhd_value::Text;
use std::alloc::Global;
use std::process::Abort;

/// Whether a text was made, and which.
fn is_made<E: Drop>(made: Result<Text, E>, word: &str) -> bool {
    match made {
        Ok(made) => made.as_str() == word,
        Err(_) => false,
    }
}

#[test]
fn paths_have_parts(rt: HostRuntime) {
    let alloc = rt.alloc();
    holds(&rt, is_absolute(&text(alloc, "/x")), "from the root");
    holds(&rt, !is_absolute(&text(alloc, "x/y")), "not from the root");
    holds(&rt, !is_absolute(&text(alloc, "")), "nothing");
    for (base, path, word) in [("", "a", "a"), ("b", "a", "b/a"), ("b/", "a", "b/a")] {
        let made = join(alloc, &text(alloc, base), &text(alloc, path));
        holds(&rt, is_made(made, word), "joined");
    }
    for (path, word) in [("/x", "/"), ("/x/y", "/x"), ("a/b", "a"), ("a", "")] {
        let made = parent(alloc, &text(alloc, path));
        holds(&rt, is_made(made, word), "a parent");
    }
}

#[test]
fn paths_have_extensions(rt: HostRuntime) {
    let alloc = rt.alloc();
    for (path, extension, word) in [
        ("foo", "rhai", "foo.rhai"),
        ("foo.tar.gz", "rhai", "foo.tar.rhai"),
        (".hidden", "rhai", ".hidden.rhai"),
        ("a.b/c", "rhai", "a.b/c.rhai"),
        ("a.b/c.d", "", "a.b/c"),
        ("a/", "rhai", "a/"),
        ("", "rhai", ""),
    ] {
        let made = with_extension(alloc, &text(alloc, path), &text(alloc, extension));
        holds(&rt, is_made(made, word), "an extension");
    }
}

#[test]
fn paths_name_files(rt: HostRuntime) {
    let alloc = rt.alloc();
    let rhai = text(alloc, "rhai");
    let scripts = text(alloc, "/scripts");
    let lib = text(alloc, "lib");
    for (path, word) in [
        ("foo", "/scripts/foo.rhai"),
        ("foo.bar", "/scripts/foo.rhai"),
        ("/x/y.txt", "/x/y.rhai"),
    ] {
        let path = text(alloc, path);
        let made = file_path(alloc, &path, Some(&scripts), Some(&lib), &rhai);
        holds(&rt, is_made(made, word), "in the base");
    }
    let foo = text(alloc, "foo");
    let made = file_path(alloc, &foo, None, Some(&lib), &rhai);
    holds(&rt, is_made(made, "lib/foo.rhai"), "in the source's folder");
    let made = file_path(alloc, &foo, None, None, &rhai);
    holds(&rt, is_made(made, "foo.rhai"), "in no base");
}

/// What came of a read: the text, or a word for anything else.
fn is_read(answer: Result<FileAnswer, impl Drop>, word: &str) -> bool {
    match answer {
        Ok(FileAnswer::Found(text)) => text.as_str() == word,
        Ok(FileAnswer::NoFile) => word == "no file",
        Ok(FileAnswer::Failed) => word == "failed",
        Err(_) => word == "no memory",
    }
}

#[test]
fn files_are_read(rt: HostRuntime) {
    let alloc = rt.alloc();
    let mut table = FileTable::new(alloc);
    for (path, word) in [("b", "second"), ("a", "old"), ("a", "first")] {
        let put = table.insert(text(alloc, path), text(alloc, word));
        holds(&rt, put.is_ok(), "put in");
    }
    holds(&rt, table.len() == 2, "two paths");
    holds(&rt, table.get(&text(alloc, "c")).is_none(), "no third");
    let first = table.iter().next();
    let in_order = first.is_some_and(|(path, _)| path.as_str() == "a");
    holds(&rt, in_order, "in order");
    let table = must(&rt, table.dup(alloc), "an equal one");
    let mut fails = Vec::new(alloc);
    for number in [2u64, 3] {
        holds(&rt, fails.push(number).is_ok(), "a call that is to fail");
    }
    let mut files = MemFiles::new(table, fails);
    for (path, word) in [
        ("a", "first"),
        ("a", "failed"),
        ("c", "no file"),
        ("b", "second"),
    ] {
        let answer = files.read(alloc, &text(alloc, path));
        holds(&rt, is_read(answer, word), "a read");
    }
}
