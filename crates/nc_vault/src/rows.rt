ghost use Rattle.std.specs.Prelude.{◌≡◌, ◌++◌, IfOk, OnOk, length};
ghost use Rattle.nc_vault.specs.Listing.{row_of, rows_of};

use crate::reply::{FileRow, Rows};
use nc_name::{Memory, Name};
use std::alloc::Global;

/// The rows of these names, in their order. A name without a length has none.
pub(crate) fn rows_of(alloc: Global, names: &[Name], lens: &[Option<u64>]) -> Result<Rows, Memory>
    requires same { length names.now ≡ length lens.now }
    ensures { IfOk result (λ rows. rows ≡ rows_of names.now lens.now) }
{
    let mut rows = Rows::new(alloc);
    for k in 0..names.len() {
        push_row(&mut rows, &names[k], lens[k])?;
    }
    Ok(rows)
}

fn push_row(rows: &mut Rows, name: &Name, len: Option<u64>) -> Result<(), Memory>
    ensures { OnOk result (rows.new ≡ rows.old ++ row_of name.now len) }
{
    match len {
        Some(len) => rows.push(FileRow { len, name: *name }),
        None => Ok(()),
    }
}
