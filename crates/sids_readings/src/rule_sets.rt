//! Which rules are tested, and the list of those that are broken.

ghost use Rattle.std.specs.Prelude.{◌≡◌, ◌++◌, ◌∷◌, [], IfOk, IfErr};
ghost use Rattle.adf_model.specs.declared.error.AdfError.{AdfError};
ghost use Rattle.sids_readings.specs.Held.{held};

use adf_model::{AdfError, Rules};
use std::alloc::Global;

/// Which rules are tested.
#[derive(Clone, Copy, Debug, PartialEq, Eq, Drop)]
pub enum RuleSet {
    /// K01 to K34.
    Check,
    /// K01 to K40.
    Check4,
}

/// A list of rules with one more, where that is broken.
pub fn with_rule(rules: Rules, number: u8, is_broken: bool) -> Result<Rules, AdfError>
    ensures value { IfOk result (λ more. more ≡ rules ++ held ((number, is_broken) ∷ [])) }
    ensures memory { IfErr result (λ error. error ≡ AdfError.Memory) }
{
    if !is_broken {
        return Ok(rules);
    }
    let mut numbers = rules.into_items();
    if numbers.push(number).is_err() {
        return Err(AdfError::Memory);
    }
    Ok(Rules::new(numbers))
}

/// The one rule, where that is broken.
pub fn one_rule(alloc: Global, number: u8, is_broken: bool) -> Result<Rules, AdfError>
    ensures value { IfOk result (λ rules. rules ≡ held ((number, is_broken) ∷ [])) }
    ensures memory { IfErr result (λ error. error ≡ AdfError.Memory) }
{
    with_rule(Rules::new(Vec::new(alloc)), number, is_broken)
}
