//! What the rules read of the base and of the zone above a node.

ghost use Rattle.std.specs.Prelude.{◌≡◌, None, IfSome, option_map};
ghost use Rattle.adf_model.specs.Causes.{OnlyAsks};
ghost use Rattle.adf_model.specs.Slots.{IsTold};
ghost use Rattle.sids_views.specs.Asks.{IsValueOr, HasAskCause, IsPlain};
ghost use Rattle.sids_rules.specs.SeenNodes.{IsSeen};
ghost use Rattle.sids_readings.specs.Around.{zone_numbers, base_around, surroundings, sizes_around, limit_around};

use crate::bases::{BaseDimensions, base_dimensions};
use crate::limits::vertex_limit;
use crate::zones::{ZoneSizes, zone_sizes};
use adf_model::{AdfError, NodeId, TreeCalls};
use sids_rules::Seen;
use std::alloc::Global;

/// What the rules read of a zone, whichever node in it they are tested on.
#[derive(Drop)]
pub struct ZoneNumbers {
    /// There where the zone meets K07.
    sizes: Option<ZoneSizes>,
    /// What node numbers may not exceed, where there are sizes and such a limit.
    limit: Option<i64>,
}

/// What the rules read of the base and of the zone above a node.
#[derive(Drop)]
pub struct Surroundings {
    /// There where there is a base that meets K05.
    pub base: Option<BaseDimensions>,
    /// There where there is a zone.
    pub zone: Option<ZoneNumbers>,
}

/// What the rules read of a zone.
pub fn zone_numbers<C: TreeCalls>(
    alloc: Global,
    calls: &mut C,
    at: NodeId,
) -> Result<ZoneNumbers, AdfError>
    requires ready { C.is_ready calls.old }
    requires plain { IsTold (C.files calls.old) (C.devices calls.old)
        → IsPlain (C.files calls.old) at }
    ensures ready { C.is_ready calls.new }
    ensures only { OnlyAsks (C.files calls.old) (C.devices calls.old)
        (C.devices calls.new) (C.files calls.new) }
    ensures value { IsTold (C.files calls.old) (C.devices calls.old)
        → IsValueOr (zone_numbers (C.files calls.old) at) result }
    ensures cause { HasAskCause (C.files calls.old) (C.devices calls.old)
        (C.devices calls.new) result }
{
    match zone_sizes(alloc, calls, at) {
        Ok(Some(sizes)) => match vertex_limit(alloc, calls, at, &sizes) {
            Ok(limit) => Ok(ZoneNumbers {
                sizes: Some(sizes),
                limit,
            }),
            Err(error) => Err(error),
        },
        Ok(None) => Ok(ZoneNumbers {
            sizes: None,
            limit: None,
        }),
        Err(error) => Err(error),
    }
}

/// What the rules read of the zone above a node, where there is one.
pub fn zone_around<C: TreeCalls>(
    alloc: Global,
    calls: &mut C,
    zone: Option<NodeId>,
) -> Result<Option<ZoneNumbers>, AdfError>
    requires ready { C.is_ready calls.old }
    requires plain { IsTold (C.files calls.old) (C.devices calls.old)
        → IfSome zone (IsPlain (C.files calls.old)) }
    ensures ready { C.is_ready calls.new }
    ensures only { OnlyAsks (C.files calls.old) (C.devices calls.old)
        (C.devices calls.new) (C.files calls.new) }
    ensures value { IsTold (C.files calls.old) (C.devices calls.old)
        → IsValueOr (option_map (zone_numbers (C.files calls.old)) zone) result }
    ensures cause { HasAskCause (C.files calls.old) (C.devices calls.old)
        (C.devices calls.new) result }
{
    match zone {
        Some(at) => match zone_numbers(alloc, calls, at) {
            Ok(numbers) => Ok(Some(numbers)),
            Err(error) => Err(error),
        },
        None => Ok(None),
    }
}

/// The dimensions of the base above a node, where there is one that meets K05.
pub fn base_around<C: TreeCalls>(
    alloc: Global,
    calls: &mut C,
    base: Option<NodeId>,
) -> Result<Option<BaseDimensions>, AdfError>
    requires ready { C.is_ready calls.old }
    requires plain { IsTold (C.files calls.old) (C.devices calls.old)
        → IfSome base (IsPlain (C.files calls.old)) }
    ensures ready { C.is_ready calls.new }
    ensures only { OnlyAsks (C.files calls.old) (C.devices calls.old)
        (C.devices calls.new) (C.files calls.new) }
    ensures value { IsTold (C.files calls.old) (C.devices calls.old)
        → IsValueOr (base_around (C.files calls.old) base) result }
    ensures cause { HasAskCause (C.files calls.old) (C.devices calls.old)
        (C.devices calls.new) result }
{
    match base {
        Some(at) => base_dimensions(alloc, calls, at),
        None => Ok(None),
    }
}

/// What the rules read of the base and of the zone above a node, for one who has not read it before.
pub fn surroundings_of<C: TreeCalls>(
    alloc: Global,
    calls: &mut C,
    seen: &Seen,
) -> Result<Surroundings, AdfError>
    requires ready { C.is_ready calls.old }
    requires seen { IsTold (C.files calls.old) (C.devices calls.old)
        → IsSeen (C.files calls.old) seen.now }
    ensures ready { C.is_ready calls.new }
    ensures only { OnlyAsks (C.files calls.old) (C.devices calls.old)
        (C.devices calls.new) (C.files calls.new) }
    ensures value { IsTold (C.files calls.old) (C.devices calls.old)
        → IsValueOr (surroundings (C.files calls.old) seen.now) result }
    ensures cause { HasAskCause (C.files calls.old) (C.devices calls.old)
        (C.devices calls.new) result }
{
    match base_around(alloc, calls, seen.base) {
        Ok(base) => match zone_around(alloc, calls, seen.zone) {
            Ok(zone) => Ok(Surroundings { base, zone }),
            Err(error) => Err(error),
        },
        Err(error) => Err(error),
    }
}

/// The sizes of the zone above a node: the second where there is no zone.
pub fn sizes_around<'a>(
    zone: &'a Option<ZoneNumbers>,
    none: &'a Option<ZoneSizes>,
) -> &'a Option<ZoneSizes>
    requires { none.now ≡ None }
    ensures { result.now ≡ sizes_around zone.now }
{
    match zone {
        Some(numbers) => &numbers.sizes,
        None => none,
    }
}

/// The limit of node numbers in the zone above a node, where its sizes are known.
pub fn limit_around(zone: &Option<ZoneNumbers>) -> Option<Option<i64>>
    ensures { result ≡ limit_around zone.now }
{
    match zone {
        Some(numbers) => {
            if numbers.sizes.is_some() {
                Some(numbers.limit)
            } else {
                None
            }
        }
        None => None,
    }
}
