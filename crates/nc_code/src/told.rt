//! Functions that compute nothing: they tell what the types of arrays keep, which a proof knows of what is read.

ghost use Rattle.nc_code.specs.Parts.{IsRow, IsTable};

use nc_bytes::told_bytes;

/// A row of an array of rows has as many bytes as its type says.
pub fn told_row<const N: usize>(row: &[u8; N])
    ensures { IsRow N row.now }
{
    told_bytes(row);
}

/// An array of rows has as many rows, of as many bytes, as its type says.
pub fn told_rows<const M: usize, const N: usize>(rows: &[[u8; N]; M])
    ensures { IsTable M N rows.now }
{
    for row in rows {
        told_row(row);
    }
}
