// Text columns ten bytes wide, each a decimal number set to the right: read from lent bytes, and written into a lent buffer in lines.
// Every call takes anything and equals its definition in specs/.

#![tactic(auto)]

mod read;
mod text;
mod write;

// The byte that ends a line.
pub const NEWLINE: u8 = b'\n';

// Reading one column.
pub use read::read_column;

// Writing a line of columns.
pub use write::put_line;
