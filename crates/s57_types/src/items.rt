//! The small lists that records are made of.

ghost use Rattle.std.specs.Prelude.{◌≡◌, ◌<◌, ◌++◌, ◌==◌, [], ◌∷◌, length, slice_get, take, Some, OnOk, OnErr, IfOk};

use crate::duplicate::Duplicate;
use crate::record::{Attr, End, Partner, Rec, Spot};
use std::alloc::{AllocError, Global};
use std::marker::Model;

/// A list that contracts see as its items.
#[derive(Debug, Drop)]
pub struct Items<T> {
    items: Vec<T>,
}

impl<T> Model for Items<T> {
    ghost use Rattle.std.specs.Prelude.{List};

    ghost Value = { List T };

    ghost view = { λ list. list.items.items };
}

impl<T> Items<T> {
    /// The empty list.
    pub fn make(alloc: Global) -> Items<T>
        ensures { result ≡ [] }
    {
        Items {
            items: Vec::new(alloc),
        }
    }

    /// The list of these items. It takes no memory.
    pub fn of_vec(items: Vec<T>) -> Items<T>
        ensures { result ≡ items.items }
    {
        Items { items }
    }

    /// A list of copies of these items.
    ///
    /// An `Err` means out of memory.
    pub fn copy_of(alloc: Global, items: &[T]) -> Result<Items<T>, AllocError>
    where
        T: Duplicate + Drop,
        ensures { IfOk result (λ list. list ≡ items.now) }
    {
        let mut copies = Vec::with_capacity(alloc, items.len())?;
        for item in items {
            copies.push(item.copy(alloc)?)?;
        }
        Ok(Items { items: copies })
    }

    /// The items. It takes no memory.
    pub fn into_vec(self) -> Vec<T>
        ensures { result.items ≡ self }
    {
        self.items
    }

    /// Appends an item.
    ///
    /// An `Err` means out of memory.
    pub fn push(&mut self, item: T) -> Result<(), AllocError>
    where
        T: Drop,
        ensures ok { OnOk result (self.new ≡ self.old ++ item ∷ []) }
        ensures err { OnErr result (self.new ≡ self.old) }
    {
        self.items.push(item)?;
        Ok(())
    }

    /// How many items there are.
    pub fn len(&self) -> usize
        ensures { result ≡ length self.now }
    {
        self.items.len()
    }

    /// Whether there is no item.
    pub fn is_empty(&self) -> bool
        ensures { result ≡ (length self.now == 0) }
    {
        self.items.is_empty()
    }

    /// The item at a place from 0.
    pub fn at(&self, k: usize) -> &T
        requires { k < length self.now }
        ensures { slice_get self.now k ≡ Some result.now }
    {
        &self.items[k]
    }

    /// The items one after the other.
    pub fn as_slice(&self) -> &[T]
        ensures { result.now ≡ self.now }
    {
        self.items.as_slice()
    }
}

/// Cuts a list back to its length before a call that failed.
pub fn cut_back<T: Drop>(
    list: &mut Vec<T>,
    length: usize,
    pushed: Result<(), AllocError>,
) -> Result<(), AllocError>
    ensures same { result ≡ pushed }
    ensures ok { OnOk result (list.new.items ≡ list.old.items) }
    ensures err { OnErr result (list.new.items ≡ take length list.old.items) }
{
    if pushed.is_err() {
        list.truncate(length);
    }
    pushed
}

/// A text as its bytes, without its terminator.
pub type Text = Items<u8>;

/// The attributes of a record: ATTF, NATF or ATTV.
pub type Attrs = Items<Attr>;

/// The pointers of a vector record: VRPT.
pub type Ends = Items<End>;

/// 2-D coordinates: SG2D, each latitude first, in integer coordinate units.
pub type Plane = Items<(i32, i32)>;

/// Soundings: SG3D, each latitude, longitude and depth, in integer coordinate units.
pub type Deep = Items<(i32, i32, i32)>;

/// The pointers of a feature to other features: FFPT.
pub type Partners = Items<Partner>;

/// The pointers of a feature to vector records: FSPT.
pub type Places = Items<Spot>;

/// Records in file order.
pub type Recs = Items<Rec>;
