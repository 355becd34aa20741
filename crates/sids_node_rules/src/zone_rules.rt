//! The rules on bases and on zones.

ghost use Rattle.std.specs.Prelude.{◌≡◌, ◌++◌, ◌∷◌, [], length, pos, ◌||◌, ◌&&◌, not, int_lt, nat_lt, Some, IfOk, IfErr};
ghost use Rattle.std.specs.List.{list_any, AllByRecursion};
ghost use Rattle.adf_model.specs.declared.error.AdfError.{AdfError};
ghost use Rattle.adf_model.specs.Causes.{OnlyAsks};
ghost use Rattle.adf_model.specs.Slots.{IsTold};
ghost use Rattle.sids_views.specs.Asks.{IsValueOr, HasAskCause, IsPlain};
ghost use Rattle.sids_tables.specs.declared.labels.LabelKind.TheVariants.{ZoneType};
ghost use Rattle.sids_views.specs.Views.{given, first_of, count_of};
ghost use Rattle.sids_rules.specs.Terms.{base_dimensions, are_dimensions};
ghost use Rattle.sids_rules.specs.Rules.{is_index_off, are_cells_off, is_boundary_off};
ghost use Rattle.sids_readings.specs.Kinds.{kind_by};
ghost use Rattle.sids_readings.specs.Held.{held};
ghost use Rattle.sids_node_rules.specs.KindTests.{tests_of_base, tests_of_zone, sized_tests, zone_tests};

use adf_model::{AdfError, NodeId, Rules, TreeCalls};
use sids_readings::{BaseDimensions, ZoneSizes, base_dimensions, kind_by, with_rule, zone_sizes};
use sids_rules::{RuleKind, breaks_k06, breaks_k08, breaks_k09, breaks_k10, breaks_k11};
use sids_tables::LabelKind;
use sids_views::{SeenChild, children_of, count_of, first_of};
use std::alloc::Global;

/// A list of rules with those that a base breaks.
pub fn with_base_rules<C: TreeCalls>(
    alloc: Global,
    calls: &mut C,
    at: NodeId,
    rules: Rules,
) -> Result<Rules, AdfError>
    requires ready { C.is_ready calls.old }
    requires plain { IsTold (C.files calls.old) (C.devices calls.old)
        → IsPlain (C.files calls.old) at }
    ensures ready { C.is_ready calls.new }
    ensures only { OnlyAsks (C.files calls.old) (C.devices calls.old)
        (C.devices calls.new) (C.files calls.new) }
    ensures value { IsTold (C.files calls.old) (C.devices calls.old)
        → IsValueOr (rules ++ held (tests_of_base (base_dimensions (C.files calls.old) at)))
        result }
    ensures cause { HasAskCause (C.files calls.old) (C.devices calls.old)
        (C.devices calls.new) result }
{
    match base_dimensions(alloc, calls, at) {
        Ok(dimensions) => with_base_tests(&dimensions, rules),
        Err(error) => Err(error),
    }
}

fn with_base_tests(dimensions: &Option<BaseDimensions>, rules: Rules) -> Result<Rules, AdfError>
    ensures value { IfOk result (λ more.
        more ≡ rules ++ held (tests_of_base dimensions.now)) }
    ensures memory { IfErr result (λ error. error ≡ AdfError.Memory) }
{
    match with_rule(rules, 5, dimensions.is_none()) {
        Ok(rules) => with_rule(rules, 6, has_no_dimensions(dimensions)),
        Err(error) => Err(error),
    }
}

/// K06 base-dimensions, where there are two numbers.
fn has_no_dimensions(dimensions: &Option<BaseDimensions>) -> bool
    ensures { result ≡ given dimensions.now (λ d. not (are_dimensions d)) }
{
    match dimensions {
        Some(dimensions) => !are_dimensions(dimensions),
        None => false,
    }
}

fn are_dimensions(dimensions: &BaseDimensions) -> bool
    ensures { result ≡ are_dimensions dimensions.now }
{
    !breaks_k06(dimensions.cell(), dimensions.phys())
}

/// A list of rules with those that a zone breaks.
pub fn with_zone_rules<C: TreeCalls>(
    alloc: Global,
    calls: &mut C,
    at: NodeId,
    base: &Option<BaseDimensions>,
    rules: Rules,
) -> Result<Rules, AdfError>
    requires ready { C.is_ready calls.old }
    requires plain { IsTold (C.files calls.old) (C.devices calls.old)
        → IsPlain (C.files calls.old) at }
    ensures ready { C.is_ready calls.new }
    ensures only { OnlyAsks (C.files calls.old) (C.devices calls.old)
        (C.devices calls.new) (C.files calls.new) }
    ensures value { IsTold (C.files calls.old) (C.devices calls.old)
        → IsValueOr (rules ++ held (zone_tests (C.files calls.old) base.now at)) result }
    ensures cause { HasAskCause (C.files calls.old) (C.devices calls.old)
        (C.devices calls.new) result }
{
    match zone_sizes(alloc, calls, at) {
        Ok(sizes) => with_sized_rules(alloc, calls, at, base, &sizes, rules),
        Err(error) => Err(error),
    }
}

/// By its sizes.
fn with_sized_rules<C: TreeCalls>(
    alloc: Global,
    calls: &mut C,
    at: NodeId,
    base: &Option<BaseDimensions>,
    sizes: &Option<ZoneSizes>,
    rules: Rules,
) -> Result<Rules, AdfError>
    requires ready { C.is_ready calls.old }
    requires plain { IsTold (C.files calls.old) (C.devices calls.old)
        → IsPlain (C.files calls.old) at }
    ensures ready { C.is_ready calls.new }
    ensures only { OnlyAsks (C.files calls.old) (C.devices calls.old)
        (C.devices calls.new) (C.files calls.new) }
    ensures value { IsTold (C.files calls.old) (C.devices calls.old)
        → IsValueOr (rules ++ held (sized_tests (C.files calls.old) base.now sizes.now at)) result }
    ensures cause { HasAskCause (C.files calls.old) (C.devices calls.old)
        (C.devices calls.new) result }
{
    match children_of(alloc, calls, at) {
        Ok(children) => with_counted_rules(alloc, calls, base, sizes, children.items(), rules),
        Err(error) => Err(error),
    }
}

/// By its sizes and its children.
fn with_counted_rules<C: TreeCalls>(
    alloc: Global,
    calls: &mut C,
    base: &Option<BaseDimensions>,
    sizes: &Option<ZoneSizes>,
    children: &[SeenChild],
    rules: Rules,
) -> Result<Rules, AdfError>
    requires ready { C.is_ready calls.old }
    requires plain { IsTold (C.files calls.old) (C.devices calls.old)
        → AllByRecursion (λ child. IsPlain (C.files calls.old) child.target) children.now }
    ensures ready { C.is_ready calls.new }
    ensures only { OnlyAsks (C.files calls.old) (C.devices calls.old)
        (C.devices calls.new) (C.files calls.new) }
    ensures value { IsTold (C.files calls.old) (C.devices calls.old)
        → IsValueOr (rules ++ held
        (tests_of_zone base.now sizes.now
        (kind_by (C.files calls.old) (first_of ZoneType children.now))
        (nat_lt 1 (count_of ZoneType children.now)))) result }
    ensures cause { HasAskCause (C.files calls.old) (C.devices calls.old)
        (C.devices calls.new) result }
{
    match kind_by(alloc, calls, first_of(LabelKind::ZoneType, children)) {
        Ok(kind) => {
            let many = count_of(LabelKind::ZoneType, children) > 1;
            with_zone_tests(base, sizes, kind, many, rules)
        }
        Err(error) => Err(error),
    }
}

fn with_zone_tests(
    base: &Option<BaseDimensions>,
    sizes: &Option<ZoneSizes>,
    kind: RuleKind,
    many: bool,
    rules: Rules,
) -> Result<Rules, AdfError>
    ensures value { IfOk result (λ more.
        more ≡ rules ++ held (tests_of_zone base.now sizes.now kind many)) }
    ensures memory { IfErr result (λ error. error ≡ AdfError.Memory) }
{
    match sizes {
        Some(sizes) => with_size_tests(base, sizes, kind, many, rules),
        None => match with_rule(rules, 7, true) {
            Ok(rules) => with_rule(rules, 13, many),
            Err(error) => Err(error),
        },
    }
}

#[tactic(auto, using(sids_readings::proofs::HeldLaws::held_cons))]
fn with_size_tests(
    base: &Option<BaseDimensions>,
    sizes: &ZoneSizes,
    kind: RuleKind,
    many: bool,
    rules: Rules,
) -> Result<Rules, AdfError>
    ensures value { IfOk result (λ more.
        more ≡ rules ++ held (tests_of_zone base.now (Some sizes.now) kind many)) }
    ensures memory { IfErr result (λ error. error ≡ AdfError.Memory) }
{
    let (vertex, cell) = (sizes.vertex(), sizes.cell());
    match with_rule(rules, 8, is_index_off(base, kind, sizes.index())) {
        Ok(rules) => match with_rule(rules, 9, has_few_vertices(vertex, cell)) {
            Ok(rules) => match with_rule(rules, 10, are_cells_off(kind, vertex, cell)) {
                Ok(rules) => with_boundary_tests(sizes, kind, many, rules),
                Err(error) => Err(error),
            },
            Err(error) => Err(error),
        },
        Err(error) => Err(error),
    }
}

fn with_boundary_tests(
    sizes: &ZoneSizes,
    kind: RuleKind,
    many: bool,
    rules: Rules,
) -> Result<Rules, AdfError>
    ensures value { IfOk result (λ more. more ≡ rules ++ held ((
      11,
      is_boundary_off kind
          sizes.now.vertex sizes.now.boundary,
    ) ∷ (13, many) ∷ [])) }
    ensures memory { IfErr result (λ error. error ≡ AdfError.Memory) }
{
    let is_broken = is_boundary_off(kind, sizes.vertex(), sizes.boundary());
    match with_rule(rules, 11, is_broken) {
        Ok(rules) => with_rule(rules, 13, many),
        Err(error) => Err(error),
    }
}

/// K08 index-dimension, where the base has the numbers of one.
fn is_index_off(base: &Option<BaseDimensions>, kind: RuleKind, index: usize) -> bool
    ensures { result ≡ given base.now (λ d. are_dimensions d && is_index_off kind index d.cell) }
{
    match base {
        Some(base) => are_dimensions(base) && differs(kind, index as u64, base.cell()),
        None => false,
    }
}

fn differs(kind: RuleKind, index: u64, cell: i64) -> bool
    ensures { result ≡ is_index_off kind index cell }
{
    breaks_k08(kind, index, cell)
}

fn has_few_vertices(vertex: &[i64], cell: &[i64]) -> bool
    ensures { result ≡ (list_any (λ n. int_lt n (pos 1)) vertex.now
        || list_any (λ n. int_lt n (pos 0)) cell.now) }
{
    breaks_k09(vertex, cell)
}

fn are_cells_off(kind: RuleKind, vertex: &[i64], cell: &[i64]) -> bool
    requires { length vertex.now ≡ length cell.now }
    ensures { result ≡ are_cells_off kind vertex.now cell.now }
{
    breaks_k10(kind, vertex, cell)
}

fn is_boundary_off(kind: RuleKind, vertex: &[i64], boundary: &[i64]) -> bool
    requires { length vertex.now ≡ length boundary.now }
    ensures { result ≡ is_boundary_off kind vertex.now boundary.now }
{
    breaks_k11(kind, vertex, boundary)
}
