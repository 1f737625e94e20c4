//! Paths as text.
ghost use Rattle.std.specs.Prelude.{Some};
ghost use Rattle.std.specs.Fmt.{WritesOnOk};
ghost use Rattle.std.specs.List.{flat_map};
ghost use Rattle.mh_json.specs.Keys.{first_text, path_text, step_text};

use mh_base::NoMemory;
use mh_json::Key;
use std::alloc::Global;
use std::fmt;

/// Keys that lead from an input to a part of it.
#[derive(Clone, Copy)]
pub(crate) struct ShownPath<'a> {
    pub keys: &'a [Key],
}

/// Writes the keys with dots between them, and the numbers of items in brackets:
/// `definition.sites[3].target[1]`.
impl fmt::Display for ShownPath<'_> {
    ghost output = { λ path. Some (path_text path.keys.now) };

    fn fmt<W: fmt::Write>(&self, f: &mut fmt::Formatter<W>) -> fmt::Result {
        let [first, others @ ..] = self.keys else {
            return Ok(());
        };
        write_first(*first, f)?;
        write_others(others, f)
    }
}

/// Writes the first key of a path, without a dot before it.
fn write_first<W: fmt::Write>(key: Key, f: &mut fmt::Formatter<W>) -> fmt::Result
    ensures text { WritesOnOk W.write_str_gives f.old result (first_text key) f.new }
{
    match key {
        Key::Member(field) => f.write_str(field.name()),
        Key::Item(_) => write_step(key, f),
    }
}

/// Writes a key that follows others.
fn write_step<W: fmt::Write>(key: Key, f: &mut fmt::Formatter<W>) -> fmt::Result
    ensures text { WritesOnOk W.write_str_gives f.old result (step_text key) f.new }
{
    match key {
        Key::Member(field) => {
            f.write_str(".")?;
            f.write_str(field.name())
        }
        Key::Item(item) => write!(f, "[{item}]"),
    }
}

/// Writes the keys after the first.
fn write_others<W: fmt::Write>(keys: &[Key], f: &mut fmt::Formatter<W>) -> fmt::Result
    ensures text { WritesOnOk W.write_str_gives f.old result (flat_map step_text keys.now) f.new }
{
    for key in keys {
        write_step(*key, f)?;
    }
    Ok(())
}

/// Returns the keys, followed by one more.
pub(crate) fn longer(alloc: Global, keys: &[Key], key: Key) -> Result<Vec<Key>, NoMemory> {
    let mut longer = keys.to_vec(alloc)?;
    longer.push(key)?;
    Ok(longer)
}
