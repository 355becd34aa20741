//! Keys that were met, in little memory.

ghost use Rattle.std.specs.Prelude.{◌≡◌, ◌+◌, ◌-◌, ◌<◌, ◌++◌, [], true, false, cond, length, get_or, OnOk};
ghost use Rattle.std.specs.BTreeMap.{is_at};
ghost use Rattle.std.specs.List.{list_any};
ghost use Rattle.std.specs.List.Sorted.{IsPermutation, IsSorted};
ghost use Rattle.std.specs.Ordering.{is_lt};
ghost use Rattle.layout_lint.specs.Keys.{contains};

use std::alloc::{AllocError, Global};
use std::collections::BTreeSet;
use std::marker::Model;

/// Keys of which most stand in a row, in order, and the others in a tree, which takes more room. A key
/// above the last of the row joins it; the others are sorted into it when they are half as many.
#[derive(Drop)]
pub struct KeySet<K: Ord> {
    row: Vec<K>,
    others: BTreeSet<K>,
}

impl<K: Ord> Model for KeySet<K> {
    ghost use Rattle.std.specs.Prelude.{List, ◌++◌};
    ghost use Rattle.std.specs.Coded.{coded_list};
    ghost use Rattle.std.specs.List.Sorted.{IsSorted};

    ghost Value = { List K };

    ghost coded = { coded_list K.code };

    ghost view = { λ s. s.row.items ++ s.others.keys };

    ghost invariant = { λ s. IsSorted K.cmp s.row.items };
}

// Whether a row in order has a key.
fn is_in_row<K: Ord>(row: &[K], key: &K) -> bool
    requires { IsSorted K.cmp row.now }
    ensures { result ≡ list_any (is_at (K.cmp key.now)) row.now }
{
    row.binary_search(key).is_ok()
}

// Whether a key may stand behind a row.
fn is_last<K: Ord>(row: &[K], key: &K) -> bool
    ensures { result ≡ true → (d : K) → 0 < length row.now
        → is_lt (K.cmp key.now (get_or row.now (length row.now - 1) d)) ≡ false }
{
    match row.last() {
        Some(last) => !key.cmp(last).is_lt(),
        None => true,
    }
}

// Puts some keys behind a row.
fn append<K: Ord + Copy + Drop>(row: &mut Vec<K>, keys: &BTreeSet<K>) -> Result<(), AllocError>
    ensures { OnOk result (row.new.items ≡ row.old.items ++ keys.now.keys) }
{
    for key in keys.iter() {
        row.push(*key)?;
    }
    Ok(())
}

impl<K: Ord + Copy + Drop> KeySet<K> {
    /// No keys yet.
    pub fn new(alloc: Global) -> KeySet<K>
        ensures { result ≡ [] }
    {
        KeySet {
            row: Vec::new(alloc),
            others: BTreeSet::new(alloc),
        }
    }

    /// Whether a key was met.
    pub fn contains(&self, key: &K) -> bool
        ensures { result ≡ contains K.cmp self.now key.now }
    {
        is_in_row(&self.row, key) || self.others.contains(key)
    }

    /// One more key.
    pub fn insert(&mut self, key: K) -> Result<(), AllocError>
        ensures { OnOk result ((q : K) → contains K.cmp self.new q
            ≡ cond (is_at (K.cmp key) q) true (contains K.cmp self.old q)) }
    {
        if is_last(&self.row, &key) {
            self.row.push(key)?;
            return Ok(());
        }
        self.others.insert(key)?;
        if self.others.len() > self.row.len() / 2 {
            let appended = append(&mut self.row, &self.others);
            self.row.sort_unstable();
            appended?;
            self.others.clear();
        }
        Ok(())
    }
}
