//! The ranges of the sections of polygons of a zone.

ghost use Rattle.std.specs.Prelude.{◌≡◌, ◌++◌, filter_map, IfOk, IfErr};
ghost use Rattle.std.specs.Option.{option_to_list};
ghost use Rattle.adf_model.specs.declared.error.AdfError.{AdfError};
ghost use Rattle.std.specs.List.{AllByRecursion};
ghost use Rattle.adf_model.specs.Causes.{OnlyAsks};
ghost use Rattle.adf_model.specs.Slots.{IsTold};
ghost use Rattle.sids_views.specs.Asks.{IsValueOr, HasAskCause, IsPlain};
ghost use Rattle.sids_rules.specs.OffsetRules.{face_range, face_ranges};
ghost use Rattle.sids_offset_rules.specs.Faces.{face_of};

use adf_format::Listing;
use adf_model::{AdfError, NodeId, TreeCalls};
use sids_readings::{ElementRange, section_head};
use sids_section_rules::good_range;
use sids_tables::LabelKind;
use sids_views::{SeenChild, children_of};
use std::alloc::Global;

/// The code of polygons.
const POLYGONS: i64 = 22;

/// The ranges of the sections of polygons of a zone that meet K23 to K26.
pub fn face_ranges<C: TreeCalls>(
    alloc: Global,
    calls: &mut C,
    zone: NodeId,
) -> Result<Listing<ElementRange>, AdfError>
    requires ready { C.is_ready calls.old }
    requires plain { IsTold (C.files calls.old) (C.devices calls.old)
        → IsPlain (C.files calls.old) zone }
    ensures ready { C.is_ready calls.new }
    ensures only { OnlyAsks (C.files calls.old) (C.devices calls.old)
        (C.devices calls.new) (C.files calls.new) }
    ensures value { IsTold (C.files calls.old) (C.devices calls.old)
        → IsValueOr (face_ranges (C.files calls.old) zone) result }
    ensures cause { HasAskCause (C.files calls.old) (C.devices calls.old)
        (C.devices calls.new) result }
{
    match children_of(alloc, calls, zone) {
        Ok(children) => faces_in(alloc, calls, children.items()),
        Err(error) => Err(error),
    }
}

fn faces_in<C: TreeCalls>(
    alloc: Global,
    calls: &mut C,
    children: &[SeenChild],
) -> Result<Listing<ElementRange>, AdfError>
    requires ready { C.is_ready calls.old }
    requires plain { IsTold (C.files calls.old) (C.devices calls.old)
        → AllByRecursion (λ child. IsPlain (C.files calls.old) child.target) children.now }
    ensures ready { C.is_ready calls.new }
    ensures only { OnlyAsks (C.files calls.old) (C.devices calls.old)
        (C.devices calls.new) (C.files calls.new) }
    ensures value { IsTold (C.files calls.old) (C.devices calls.old)
        → IsValueOr (filter_map (face_of (C.files calls.old)) children.now) result }
    ensures cause { HasAskCause (C.files calls.old) (C.devices calls.old)
        (C.devices calls.new) result }
{
    let mut faces = Vec::new(alloc);
    for child in children {
        match face_of(alloc, calls, child) {
            Ok(face) => match with_face(faces, face) {
                Ok(more) => faces = more,
                Err(error) => return Err(error),
            },
            Err(error) => return Err(error),
        }
    }
    Ok(Listing::new(faces))
}

fn with_face(
    faces: Vec<ElementRange>,
    face: Option<ElementRange>,
) -> Result<Vec<ElementRange>, AdfError>
    ensures value { IfOk result (λ more. more.items ≡ faces.items ++ option_to_list face) }
    ensures memory { IfErr result (λ error. error ≡ AdfError.Memory) }
{
    match face {
        Some(face) => {
            let mut ranges = faces;
            if ranges.push(face).is_err() {
                return Err(AdfError::Memory);
            }
            Ok(ranges)
        }
        None => Ok(faces),
    }
}

/// The range of a child that is a section of polygons.
fn face_of<C: TreeCalls>(
    alloc: Global,
    calls: &mut C,
    child: &SeenChild,
) -> Result<Option<ElementRange>, AdfError>
    requires ready { C.is_ready calls.old }
    requires plain { IsTold (C.files calls.old) (C.devices calls.old)
        → IsPlain (C.files calls.old) child.now.target }
    ensures ready { C.is_ready calls.new }
    ensures only { OnlyAsks (C.files calls.old) (C.devices calls.old)
        (C.devices calls.new) (C.files calls.new) }
    ensures value { IsTold (C.files calls.old) (C.devices calls.old)
        → IsValueOr (face_of (C.files calls.old) child.now) result }
    ensures cause { HasAskCause (C.files calls.old) (C.devices calls.old)
        (C.devices calls.new) result }
{
    if child.kind == LabelKind::Elements {
        face_range(alloc, calls, child.target)
    } else {
        Ok(None)
    }
}

fn face_range<C: TreeCalls>(
    alloc: Global,
    calls: &mut C,
    at: NodeId,
) -> Result<Option<ElementRange>, AdfError>
    requires ready { C.is_ready calls.old }
    requires plain { IsTold (C.files calls.old) (C.devices calls.old)
        → IsPlain (C.files calls.old) at }
    ensures ready { C.is_ready calls.new }
    ensures only { OnlyAsks (C.files calls.old) (C.devices calls.old)
        (C.devices calls.new) (C.files calls.new) }
    ensures value { IsTold (C.files calls.old) (C.devices calls.old)
        → IsValueOr (face_range (C.files calls.old) at) result }
    ensures cause { HasAskCause (C.files calls.old) (C.devices calls.old)
        (C.devices calls.new) result }
{
    match section_head(alloc, calls, at) {
        Ok(Some(head)) => {
            if head.is_good() && head.code() == POLYGONS {
                good_range(alloc, calls, at)
            } else {
                Ok(None)
            }
        }
        Ok(None) => Ok(None),
        Err(error) => Err(error),
    }
}
