//! Numbers that stand once.
ghost use Rattle.std.specs.Prelude.{◌↔◌, ℕ, IsTrue, IfOk, map};
ghost use Rattle.ds_ast.specs.declared.name.Name.{Name as name};
ghost use Rattle.ds_shape.specs.Types.{AreDistinctNumbers};

use ds_ast::Name;
use std::alloc::{AllocError, Global};
use std::collections::BTreeSet;

/// Whether no number of a `switch` stands there twice. An `Err` comes only where there is not enough memory.
pub fn are_distinct(alloc: Global, cases: &[(u64, Name)]) -> Result<bool, AllocError>
    ensures { IfOk result (λ distinct. IsTrue distinct ↔ AreDistinctNumbers (map (λ (c : ℕ × name). c.0) cases.now)) }
{
    let mut numbers = BTreeSet::new(alloc);
    for case in cases {
        if !numbers.insert(case.0)? {
            return Ok(false);
        }
    }
    Ok(true)
}
