//! Laws of the generated cell, each the contract of a function that does nothing.

ghost use Rattle.std.specs.Prelude.{◌≡◌, ◌+◌, ◌*◌, ℕ, map};
ghost use Rattle.std.specs.List.{range_with_len};
ghost use Rattle.s57_types.specs.declared.name.Kind.TheVariants.{Vc, Ve, Fe};
ghost use Rattle.cell_spec.specs.Lookup.{name_of};
ghost use Rattle.cell_parts.specs.Parts.{name};
ghost use Rattle.cell_make.specs.Square.{square};
ghost use Rattle.cell_make.specs.GeneratedCell.{generated_areas, generated_cell, generated_edges, generated_nodes};

/// The smallest cell is the square whose file is typed out byte by byte.
#[tactic(auto, unfolding(crate::specs::GeneratedCell::generated_cell))]
pub fn one_square_is_made()
    ensures { generated_cell 1 ≡ square }
{}

/// Nodes, edges and areas are each numbered from 1 on, in the order of their lists.
#[tactic(auto, using(crate::proofs::Numbers::node_names, crate::proofs::Numbers::edge_names, crate::proofs::Numbers::area_names))]
pub fn records_are_numbered()
    ensures nodes { (n : ℕ) → map name_of (generated_nodes n) ≡ map (name Vc) (range_with_len 1 ((n + 1) * (n + 1))) }
    ensures edges { (n : ℕ) → map name_of (generated_edges n) ≡ map (name Ve) (range_with_len 1 (2 * (n * (n + 1)))) }
    ensures areas { (n : ℕ) → map name_of (generated_areas n) ≡ map (name Fe) (range_with_len 1 (n * n + 1)) }
{}
