//! Values and rows.

ghost use Rattle.std.specs.Prelude.{◌≡◌, IfOk};

use crate::NoMemory;
use crate::copies::Copies;
use crate::seq::Seq;
use crate::text::Text;
use std::alloc::Global;

/// A value of a column: a signed number of 64 bits, or a text of at most 255 bytes.
///
/// Takes three words. An Int takes no memory of its own, a Text of over 14 bytes that for its bytes.
#[derive(Drop)]
pub enum Value {
    Int(i64),
    Text(Text),
}

/// The values of a row, one for each column.
pub type Row = Seq<Value>;

/// Rows in order.
pub type Rows = Seq<Row>;

/// Where a row of a table stands in memory. A row keeps its slot until it is purged or removed.
pub type Slot = usize;

impl Value {
    /// An equal value. Linear in a text's bytes.
    pub fn copy(&self, alloc: Global) -> Result<Value, NoMemory>
        ensures { IfOk result (λ copy. copy ≡ self.now) }
    {
        match self {
            Value::Int(n) => Ok(Value::Int(*n)),
            Value::Text(text) => {
                let text = text.copy(alloc)?;
                Ok(Value::Text(text))
            }
        }
    }
}

/// An equal row. Linear in the bytes of its texts and the number of its values.
pub fn copy_row(alloc: Global, row: &Row) -> Result<Row, NoMemory>
    ensures { IfOk result (λ copy. copy ≡ row.now) }
{
    row.duplicate(alloc)
}
