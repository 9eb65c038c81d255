//! The names of what a call of one series gives.
ghost use Rattle.std.specs.Prelude.{◌≡◌, IfOk, string_bytes};
ghost use Rattle.series_funcs.specs.Named.{call_text};

use std::alloc::{AllocError, Global};

/// How what a call of one series gives is named: `function(NAME)`, or with a tail behind the series' name.
#[derive(Clone, Copy)]
pub struct CallName<'a> {
    /// The function's name as it was written, as `scale`.
    pub function: &'a str,
    /// What stands between the series and the closing bracket: nothing, or a comma and the further arguments, as `,0.001`.
    pub tail: &'a str,
}

/// The text of a call: `function(NAME)`, or with the tail behind the name, as in `scale(a.b,0.001)`.
#[tactic(auto, unfolding(crate::specs::Named::call_text))]
pub(crate) fn call_text(
    alloc: Global,
    function: &str,
    name: &str,
    tail: &str,
) -> Result<String, AllocError>
    ensures { IfOk result (λ text. string_bytes text ≡ call_text function.now name.now tail.now) }
{
    let mut text = String::from_str(alloc, function)?;
    text.push_str("(")?;
    text.push_str(name)?;
    text.push_str(tail)?;
    text.push_str(")")?;
    Ok(text)
}
