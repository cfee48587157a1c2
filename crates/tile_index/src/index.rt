//! The index of tiles and plans of its changes.

ghost use Rattle.std.specs.Prelude.{◌≡◌, [], IfOk, IsOk, OnOk, Some, is_some, option_and_then, true, if◌then◌else◌};
ghost use Rattle.std.specs.Ordering.{is_eq};
ghost use Rattle.s57_types.specs.declared.name.RecName.{RecName as SpecRecName};
ghost use Rattle.cell_spec.specs.Names.{name_order};
ghost use Rattle.row_spec.specs.Rows.{value_of, with_row, without_key};
ghost use Rattle.finding_laws.specs.Tables.{Covering, mates_in};
ghost use Rattle.pair_set.specs.Pairs.{is_among};
ghost use Rattle.tile_index.specs.Changes.{after_change, after_changes, covering_given as spec_given, ranges_at, ranges_in};
ghost use Rattle.tile_index.specs.Tilings.{Tile as SpecTile, is_near, is_under, tile_order};

use crate::change::TileChange;
use crate::cover::Cover;
use crate::mates::{names_under, push_names, without};
use crate::range::Tile;
use cell_spec::{Names, ascending_names, orders_are_by_parts};
use geometry_spec::Box4;
use pair_set::PairSet;
use s57_types::{Duplicate, RecName};
use shared_table::{ByNumber, Shared, SharedTable};
use std::alloc::{AllocError, Global};
use std::marker::Model;

/// The tiles under connected nodes and edges, seen as rows of a name and its covering, in ascending order of the names. Copies share what
/// they hold, and a change of one of two leaves the other as it is.
pub struct TileIndex {
    pub(crate) kept: SharedTable<RecName, Shared<Cover>>,
    pub(crate) in_tiles: PairSet<Tile, RecName>,
    pub(crate) oversized: SharedTable<RecName, ()>,
}

impl Drop for TileIndex {
    fn drop(self) {
        let TileIndex {
            kept: _,
            in_tiles: _,
            oversized: _,
        } = self;
    }
}

impl Model for TileIndex {
    ghost use Rattle.std.specs.Prelude.{List};
    ghost use Rattle.s57_types.specs.declared.name.RecName.{RecName};
    ghost use Rattle.finding_laws.specs.Tables.{Covering};

    ghost Value = { List (RecName × Covering) };

    ghost use Rattle.tile_index.specs.Tilings.{IsTiling};

    ghost view = { λ i. i.kept };

    ghost invariant = { λ i. IsTiling i.kept i.in_tiles i.oversized };
}

/// The whole of an index after some changes, seen as its rows.
#[derive(Drop)]
pub struct TilePlan {
    index: TileIndex,
}

impl Model for TilePlan {
    ghost use Rattle.std.specs.Prelude.{List};
    ghost use Rattle.s57_types.specs.declared.name.RecName.{RecName};
    ghost use Rattle.finding_laws.specs.Tables.{Covering};

    ghost Value = { List (RecName × Covering) };

    ghost view = { λ p. p.index };
}

impl TilePlan {
    /// The index after the changes. It takes no memory.
    pub fn into_index(self) -> TileIndex
        ensures { result ≡ self }
    {
        self.index
    }
}

/// A plan, and whether it is known to leave each name the mates that it had.
#[derive(Drop)]
pub struct NotedPlan {
    pub plan: TilePlan,
    /// `true` where no change gave a name other ranges than it had.
    pub keeps_mates: bool,
}

// An index after a change, and whether the change has left the ranges of its name.
#[derive(Drop)]
struct Changed {
    index: TileIndex,
    in_place: bool,
}

impl TileIndex {
    /// An index that keeps no name.
    pub fn make() -> TileIndex
        ensures { result ≡ [] }
    {
        TileIndex {
            kept: SharedTable::make(),
            in_tiles: PairSet::make(),
            oversized: SharedTable::make(),
        }
    }

    /// The names that may touch this one, ascending: all others where one of its ranges is oversized, else those that share a tile with
    /// it and the oversized ones. A name that isn't kept has none. An `Err` means out of memory.
    pub fn mates(&self, alloc: Global, name: RecName) -> Result<Names, AllocError>
        ensures { IfOk result (λ names. names ≡ mates_in self.now name) }
    {
        orders_are_by_parts();
        // The rows ascend.
        let _count = self.kept.len();
        let Some(own) = self.kept.get_near::<ByNumber>(&name) else {
            return Ok(Names::make(alloc));
        };
        let near = self.near(alloc, own)?;
        Ok(ascending_names(without(near, name)))
    }

    /// The names that may touch this one after a plan. An `Err` means out of memory.
    pub fn mates_after(
        &self,
        alloc: Global,
        plan: &TilePlan,
        name: RecName,
    ) -> Result<Names, AllocError>
        ensures { IfOk result (λ names. names ≡ mates_in plan.now name) }
    {
        plan.index.mates(alloc, name)
    }

    /// The least box around a name's segments. There is none where the name isn't kept.
    pub fn extent(&self, name: RecName) -> Option<Box4>
        ensures { result ≡ option_and_then (λ (covering : Covering). covering.extent) (value_of name_order self.now name) }
    {
        orders_are_by_parts();
        self.kept.get_near::<ByNumber>(&name)?.extent()
    }

    /// The index after some changes, one after the other. It takes all memory that they need, and an `Err` means that there isn't enough.
    pub fn plan(&self, alloc: Global, changes: &[TileChange]) -> Result<TilePlan, AllocError>
        ensures { IfOk result (λ plan. plan ≡ after_changes self.now changes.now) }
    {
        Ok(self.plan_noting_mates(alloc, changes)?.plan)
    }

    /// The same plan, and whether it is known to leave all mates as they were: where no change gives a name other ranges. An `Err` means
    /// out of memory.
    pub fn plan_noting_mates(
        &self,
        alloc: Global,
        changes: &[TileChange],
    ) -> Result<NotedPlan, AllocError>
        ensures plan { IfOk result (λ noted. noted.plan ≡ after_changes self.now changes.now) }
        ensures mates { IfOk result (λ noted. noted.keeps_mates ≡ true → (n : SpecRecName) → mates_in noted.plan n ≡ mates_in self.now n) }
    {
        let mut index = self.copy(alloc)?;
        let mut keeps_mates = true;
        for change in changes {
            let changed = index.changed(alloc, change)?;
            index = changed.index;
            keeps_mates = keeps_mates && changed.in_place;
        }
        Ok(NotedPlan {
            plan: TilePlan { index },
            keeps_mates,
        })
    }

    /// Takes the memory that installing a plan needs: none, since the plan has taken it.
    pub fn reserve(&mut self, _plan: &TilePlan) -> Result<(), AllocError>
        ensures ok { IsOk result }
        ensures same { self.new ≡ self.old }
    {
        Ok(())
    }

    /// Puts the index of a plan in this one's place. It takes no memory.
    pub fn install(&mut self, plan: TilePlan)
        ensures { self.new ≡ plan }
    {
        *self = plan.index;
    }

    // The names whose ranges meet those of a covering, in any order and maybe more than once.
    fn near(&self, alloc: Global, own: &Cover) -> Result<Vec<RecName>, AllocError>
        ensures { IfOk result (λ names. (n : SpecRecName) → is_among name_order names.items n ≡ is_near self.now own.now n) }
    {
        if own.is_oversized() {
            let mut names = Vec::new(alloc);
            push_names(&mut names, &self.kept)?;
            return Ok(names);
        }
        let mut names = names_under(alloc, &self.in_tiles, &own.tiles(alloc)?)?;
        push_names(&mut names, &self.oversized)?;
        Ok(names)
    }

    // Whether a name has a covering with the ranges of another one.
    fn has_ranges_of(&self, name: RecName, cover: &Cover) -> bool
        ensures { result ≡ true → ranges_at self.now name ≡ Some cover.now.ranges }
    {
        orders_are_by_parts();
        match self.kept.get_near::<ByNumber>(&name) {
            Some(own) => own.has_ranges_of(cover),
            None => false,
        }
    }

    // Whether a name is kept.
    fn has(&self, name: RecName) -> bool
        ensures { result ≡ is_some (value_of name_order self.now name) }
    {
        orders_are_by_parts();
        self.kept.get_near::<ByNumber>(&name).is_some()
    }

    // The index after a change.
    fn changed(self, alloc: Global, change: &TileChange) -> Result<Changed, AllocError>
        ensures index { IfOk result (λ changed. changed.index ≡ after_change self change.now) }
        ensures ranges { IfOk result (λ changed. changed.in_place ≡ true → ranges_in changed.index ≡ ranges_in self) }
    {
        match covering_given(alloc, change)? {
            Some(cover) => self.covered(alloc, change.name, cover),
            None => self.uncovered(alloc, change.name),
        }
    }

    // The index with a name's new covering.
    fn covered(self, alloc: Global, name: RecName, cover: Cover) -> Result<Changed, AllocError>
        ensures index { IfOk result (λ changed. changed.index ≡ with_row name_order self name cover) }
        ensures ranges { IfOk result (λ changed. changed.in_place ≡ true → ranges_in changed.index ≡ ranges_in self) }
    {
        let in_place = self.has_ranges_of(name, &cover);
        let index = if in_place {
            self.with_cover_in_place(alloc, name, cover)?
        } else {
            self.with_cover(alloc, name, cover)?
        };
        Ok(Changed { index, in_place })
    }

    // The index without a name, which it need not have.
    fn uncovered(self, alloc: Global, name: RecName) -> Result<Changed, AllocError>
        ensures index { IfOk result (λ changed. changed.index ≡ without_key name_order self name) }
        ensures ranges { IfOk result (λ changed. changed.in_place ≡ true → ranges_in changed.index ≡ ranges_in self) }
    {
        if self.has(name) {
            let index = self.without(alloc, name)?;
            return Ok(Changed {
                index,
                in_place: false,
            });
        }
        Ok(Changed {
            index: self,
            in_place: true,
        })
    }

    // The index with a name's new covering, which has the ranges of its old one: the name stays under the same tiles.
    fn with_cover_in_place(
        self,
        alloc: Global,
        name: RecName,
        cover: Cover,
    ) -> Result<TileIndex, AllocError>
        requires { ranges_at self name ≡ Some cover.ranges }
        ensures index { IfOk result (λ index. index ≡ with_row name_order self name cover) }
        ensures ranges { IfOk result (λ index. ranges_in index ≡ ranges_in self) }
    {
        orders_are_by_parts();
        let TileIndex {
            mut kept,
            in_tiles,
            oversized,
        } = self;
        // The rows ascend.
        let _count = kept.len();
        kept.put(alloc, name, Shared::make(alloc, cover)?)?;
        Ok(TileIndex {
            kept,
            in_tiles,
            oversized,
        })
    }

    // The index with a name's new covering.
    fn with_cover(self, alloc: Global, name: RecName, cover: Cover) -> Result<TileIndex, AllocError>
        ensures { IfOk result (λ index. index ≡ with_row name_order self name cover) }
    {
        orders_are_by_parts();
        let TileIndex {
            mut kept,
            mut in_tiles,
            mut oversized,
        } = self;
        let old = tiles_at(alloc, &kept, name)?;
        in_tiles.replace(alloc, name, &old, &cover.tiles(alloc)?)?;
        mark(alloc, &mut oversized, name, cover.is_oversized())?;
        kept.put(alloc, name, Shared::make(alloc, cover)?)?;
        Ok(TileIndex {
            kept,
            in_tiles,
            oversized,
        })
    }

    // The index without a name.
    fn without(self, alloc: Global, name: RecName) -> Result<TileIndex, AllocError>
        ensures { IfOk result (λ index. index ≡ without_key name_order self name) }
    {
        orders_are_by_parts();
        let TileIndex {
            mut kept,
            mut in_tiles,
            mut oversized,
        } = self;
        // The rows ascend, so that the name has one.
        let _count = kept.len();
        let old = tiles_at(alloc, &kept, name)?;
        in_tiles.replace(alloc, name, &old, &[])?;
        mark(alloc, &mut oversized, name, false)?;
        kept.take(alloc, &name)?;
        Ok(TileIndex {
            kept,
            in_tiles,
            oversized,
        })
    }
}

impl Duplicate for TileIndex {
    /// The same index. It counts what both share, and copies no row.
    fn copy(&self, _alloc: Global) -> Result<TileIndex, AllocError> {
        Ok(TileIndex {
            kept: self.kept.share()?,
            in_tiles: self.in_tiles.share()?,
            oversized: self.oversized.share()?,
        })
    }
}

/// The covering that a change gives its name.
pub(crate) fn covering_given(
    alloc: Global,
    change: &TileChange,
) -> Result<Option<Cover>, AllocError>
    ensures { IfOk result (λ cover. cover ≡ spec_given change.now) }
{
    match &change.points {
        Some(points) => Cover::of_points(alloc, change.name, points.as_slice()),
        None => Ok(None),
    }
}

// The tiles that a name stands with, none of an oversized one.
fn tiles_at(
    alloc: Global,
    kept: &SharedTable<RecName, Shared<Cover>>,
    name: RecName,
) -> Result<Vec<Tile>, AllocError>
    ensures { IfOk result (λ tiles. (t : SpecTile) → is_among tile_order tiles.items t ≡ is_under kept.now t name) }
{
    orders_are_by_parts();
    match kept.get_near::<ByNumber>(&name) {
        Some(cover) => cover.tiles(alloc),
        None => Ok(Vec::new(alloc)),
    }
}

// Puts a name among the oversized ones, or takes it out.
fn mark(
    alloc: Global,
    oversized: &mut SharedTable<RecName, ()>,
    name: RecName,
    is: bool,
) -> Result<(), AllocError>
    ensures { OnOk result ((n : SpecRecName) → is_some (value_of name_order oversized.new n)
        ≡ (if is_eq (name_order name n) then is else is_some (value_of name_order oversized.old n))) }
{
    orders_are_by_parts();
    // The rows ascend, so that the name stands there once.
    let _count = oversized.len();
    if is {
        oversized.put(alloc, name, ())
    } else {
        oversized.take(alloc, &name)
    }
}
