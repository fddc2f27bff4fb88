//! Paths. A path is a text in which `/` stands between the parts.

ghost use Rattle.std.specs.Prelude.{◌≡◌, ◌++◌, ◌||◌, not, codes, nat_eq, IfOk, OnOk};
ghost use Rattle.std.specs.List.{ends_with};
ghost use Rattle.std.specs.Option.{option_copied};
ghost use Rattle.rhd_files.specs.Paths.{is_empty, is_absolute, join, parent, last_part, folder, stem, dotted, with_extension, file_path};

use rhd_value::{OutOfMemory, Text};
use std::alloc::Global;

/// Whether the path begins with `/`.
pub fn is_absolute(path: &Text) -> bool
    ensures { result ≡ is_absolute path.now }
{
    path.as_str().starts_with("/")
}

/// Whether a `/` goes between a base and what is joined to it.
fn needs_slash(base: &str) -> bool
    ensures { result ≡ not (is_empty base.now || ends_with nat_eq base.now (codes "/")) }
{
    !base.is_empty() && !base.ends_with("/")
}

/// The path in a base: the base and the path, with a `/` between them where the base is neither empty
/// nor ends with one. Fails where memory runs out.
pub fn join(alloc: Global, base: &Text, path: &Text) -> Result<Text, OutOfMemory>
    ensures { IfOk result (λ joined. joined ≡ join base.now path.now) }
{
    let mut joined = base.dup(alloc)?;
    if needs_slash(base.as_str()) {
        joined.push("/")?;
    }
    joined.push(path.as_str())?;
    Ok(joined)
}

/// What stands before the last `/`, or nothing where there is none; `/` where that is the first byte.
fn parent_of(path: &str) -> &str
    ensures { result.now ≡ parent path.now }
{
    match path.rsplit_once('/') {
        Some((front, _)) if front.is_empty() => "/",
        Some((front, _)) => front,
        None => "",
    }
}

/// The folder that a path stands in: what stands before its last `/`. That is `/` where the last `/` is
/// the first byte, and empty where there is no `/`. Fails where memory runs out.
pub fn parent(alloc: Global, path: &Text) -> Result<Text, OutOfMemory>
    ensures { IfOk result (λ folder. folder ≡ parent path.now) }
{
    let mut folder = Text::new(alloc);
    folder.push(parent_of(path.as_str()))?;
    Ok(folder)
}

/// What follows the last `/`, or the whole path where there is none.
fn last_part(path: &str) -> &str
    ensures { result.now ≡ last_part path.now }
{
    match path.rsplit_once('/') {
        Some((_, name)) => name,
        None => path,
    }
}

/// What stands before the last part: all up to the last `/`, with it.
fn folder(path: &str) -> &str
    ensures { result.now ≡ folder path.now }
{
    match path.rfind('/') {
        Some(at) => &path[..at + 1],
        None => "",
    }
}

/// A last part without its extension and its `.`. A `.` in front begins no extension.
fn stem(name: &str) -> &str
    ensures { result.now ≡ stem name.now }
{
    match name.rsplit_once('.') {
        Some((stem, _)) if !stem.is_empty() => stem,
        _ => name,
    }
}

/// Puts an extension at the end, with its `.`; nothing for an empty one.
fn push_extension(text: &mut Text, extension: &str) -> Result<(), OutOfMemory>
    ensures { OnOk result (text.new ≡ text.old ++ dotted extension.now) }
{
    if extension.is_empty() {
        return Ok(());
    }
    text.push(".")?;
    text.push(extension)
}

/// The path with this extension, with its `.`, in the place of its own one. With an empty extension it
/// has none; a path whose last part is empty stays as it is. Fails where memory runs out.
pub fn with_extension(alloc: Global, path: &Text, extension: &Text) -> Result<Text, OutOfMemory>
    ensures { IfOk result (λ changed. changed ≡ with_extension path.now extension.now) }
{
    let name = last_part(path.as_str());
    if name.is_empty() {
        return path.dup(alloc);
    }
    let mut changed = Text::new(alloc);
    changed.push(folder(path.as_str()))?;
    changed.push(stem(name))?;
    push_extension(&mut changed, extension.as_str())?;
    Ok(changed)
}

/// The path of the file that a path names. An absolute path stands for itself; another one is joined to
/// the base, where there is none to the folder of the source, and where there is neither to nothing.
/// Then it gets the extension. Fails where memory runs out.
pub fn file_path(
    alloc: Global,
    path: &Text,
    base: Option<&Text>,
    source_path: Option<&Text>,
    extension: &Text,
) -> Result<Text, OutOfMemory>
    ensures { IfOk result (λ file. file ≡ file_path path.now (option_copied base.entry) (option_copied source_path.entry) extension.now) }
{
    match base.or(source_path) {
        Some(folder) if !is_absolute(path) => {
            with_extension(alloc, &join(alloc, folder, path)?, extension)
        }
        _ => with_extension(alloc, path, extension),
    }
}
