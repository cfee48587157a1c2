//! The names of the records that were read.

ghost use Rattle.std.specs.Prelude.{◌≡◌, ◌∷◌, ◌++◌, ◌||◌, [], false, true, not, IfOk, OnOk};
ghost use Rattle.std.specs.List.{list_any};
ghost use Rattle.std.specs.List.Sorted.{IsStrictlySortedBy};
ghost use Rattle.s57_types.specs.declared.name.RecName.{RecName as SpecName};
ghost use Rattle.cell_spec.specs.Names.{name_order, same_name};
ghost use Rattle.cell_read.specs.NamesSeen.{Ascends, has_name};

use cell_spec::orders_are_by_parts;
use s57_types::RecName;
use std::alloc::{AllocError, Global};
use std::collections::BTreeSet;

/// Names, each once. Those that came in ascending order, which are all in most files, take no search.
#[derive(Drop)]
pub struct Names {
    ascending: Vec<RecName>,
    others: BTreeSet<RecName>,
}

impl Names {
    /// No name.
    pub fn new(alloc: Global) -> Names
        ensures none { (n : SpecName) → has_name result n ≡ false }
        ensures ascends { Ascends result }
    {
        Names {
            ascending: Vec::new(alloc),
            others: BTreeSet::new(alloc),
        }
    }

    /// Whether a name comes behind those that came in ascending order.
    fn comes_last(&self, name: RecName) -> bool
        requires { Ascends self.now }
        ensures { result ≡ true → IsStrictlySortedBy name_order (self.now.ascending.items ++ name ∷ []) }
    {
        orders_are_by_parts();
        match self.ascending.last() {
            Some(last) => last.cmp(&name).is_lt(),
            None => true,
        }
    }

    /// Whether a name is one of those that came in ascending order.
    fn is_among(&self, name: RecName) -> bool
        requires { Ascends self.now }
        ensures { result ≡ list_any (same_name name) self.now.ascending.items }
    {
        if self.comes_last(name) {
            return false;
        }
        orders_are_by_parts();
        self.ascending.binary_search(&name).is_ok()
    }

    /// Whether a name is one of these.
    fn has(&self, name: RecName) -> bool
        requires { Ascends self.now }
        ensures { result ≡ has_name self.now name }
    {
        orders_are_by_parts();
        self.is_among(name) || self.others.contains(&name)
    }

    /// Puts a name among the others.
    fn put(&mut self, name: RecName) -> Result<(), AllocError>
        requires { Ascends self.old }
        ensures ascends { OnOk result (Ascends self.new) }
        ensures names { OnOk result ((n : SpecName) → has_name self.new n ≡ (same_name n name || has_name self.old n)) }
    {
        orders_are_by_parts();
        if self.comes_last(name) {
            self.ascending.push(name)?;
        } else {
            self.others.insert(name)?;
        }
        Ok(())
    }

    /// Adds a name, and says whether it is new.
    pub fn add(&mut self, name: RecName) -> Result<bool, AllocError>
        requires { Ascends self.old }
        ensures ascends { OnOk result (Ascends self.new) }
        ensures is_new { IfOk result (λ added. added ≡ not (has_name self.old name)) }
        ensures names { OnOk result ((n : SpecName) → has_name self.new n ≡ (same_name n name || has_name self.old n)) }
    {
        if self.has(name) {
            return Ok(false);
        }
        self.put(name)?;
        Ok(true)
    }
}
