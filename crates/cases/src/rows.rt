//! Rows: items in a line of a case.

ghost use Rattle.std.specs.Prelude.{IfOk, Ok};
ghost use Rattle.std.specs.Fn.{FnReturnsAt};
ghost use Rattle.cases.specs.Rows.{IsRow};

use std::alloc::Global;
use std::error::Error;

/// Reads the items of a text, which white space parts.
pub(crate) fn parse_row<T: Drop, E: Error, F: Fn(&str) -> Result<T, E>>(
    alloc: Global,
    text: &str,
    parse: F,
) -> anyhow::Result<Vec<T>>
    requires { F.IsAlwaysCallable parse }
    ensures { IfOk result (λ row. IsRow (λ item value. FnReturnsAt F.Fn parse item (Ok value)) text.now row.items) }
{
    let mut row = Vec::new(alloc);
    for item in text.split_whitespace() {
        row.push(parse(item)?)?;
    }
    Ok(row)
}
