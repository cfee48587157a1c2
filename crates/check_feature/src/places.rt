//! The spatial pointers of a feature (FSPT, S-57 Part 3, 7.6.8).

ghost use Rattle.std.specs.Prelude.{◌≡◌, ◌++◌, OnOk, map};
ghost use Rattle.std.specs.List.{list_any};
ghost use Rattle.s57_types.specs.declared.cell.Cell.{Cell as SpecCell};
ghost use Rattle.rule_spec.specs.declared.kind.TheConstants.{PRIM_REFS};
ghost use Rattle.rule_spec.specs.Features.{fits_primitive as spec_fits, prim_refs, target};
ghost use Rattle.rule_spec.specs.Findings.{finding};
ghost use Rattle.rule_spec.specs.Records.{is_edge_name, is_node_name};

use crate::found::push_if;
use crate::naming::Naming;
use cell_spec::Finding;
use check_words::AREA;
use near_records::Near;
use rule_spec::PRIM_REFS;
use s57_types::{Feature, Kind, Spot};
use std::alloc::AllocError;

/// The geometric primitive PRIM of a point (S-57 Part 3, 7.6.1).
pub(crate) const POINT: u8 = 1;

/// That of a line.
pub(crate) const LINE: u8 = 2;

/// That of a feature which references no geometry.
const NO_GEOMETRY: u8 = 255;

fn name_an_edge(places: &[Spot]) -> bool
    ensures { result ≡ list_any is_edge_name (map target places.now) }
{
    for spot in places {
        if spot.to.kind == Kind::Ve {
            return true;
        }
    }
    false
}

fn name_a_node(places: &[Spot]) -> bool
    ensures { result ≡ list_any is_node_name (map target places.now) }
{
    for spot in places {
        if spot.to.kind == Kind::Vi || spot.to.kind == Kind::Vc {
            return true;
        }
    }
    false
}

/// Whether spatial pointers fit a geometric primitive PRIM.
fn fit_primitive(prim: u8, places: &[Spot]) -> bool
    ensures { result ≡ spec_fits prim (map target places.now) }
{
    match prim {
        POINT => places.len() == 1 && !name_an_edge(places),
        LINE | AREA => !places.is_empty() && !name_a_node(places),
        NO_GEOMETRY => places.is_empty(),
        _ => false,
    }
}

/// PrimRefs: appends its finding about a feature.
pub(crate) fn push_prim_refs(
    findings: &mut Vec<Finding>,
    feature: &Feature,
) -> Result<(), AllocError>
    ensures { (c : SpecCell) → OnOk result (findings.new.items ≡ findings.old.items ++ map (finding PRIM_REFS) (prim_refs c feature.now)) }
{
    let fits = fit_primitive(feature.prim, feature.places.as_slice());
    push_if(findings, PRIM_REFS, !fits)
}

impl Naming for Spot {
    ghost use Rattle.std.specs.Prelude.{is_some, not};
    ghost use Rattle.cell_spec.specs.declared.key.Key.TheVariants.{Name as KeyName};
    ghost use Rattle.cell_spec.specs.Lookup.{lookup_record};
    ghost use Rattle.rule_spec.specs.Features.{target};

    ghost key = { λ spot. KeyName spot.to };

    ghost is_dangling = { λ c spot. not (is_some (lookup_record c (target spot))) };

    fn dangles<N: Near>(&self, near: &N) -> bool {
        match near.record(self.to) {
            Some(_) => false,
            None => true,
        }
    }
}
