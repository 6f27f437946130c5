//! Case files: how they are read, and how a program runs the cases in them and counts them.
//!
//! A case is what a program is given and what it has to answer, decided by hand. A case file is UTF-8 text, and its last
//! line ends with a line feed too. It is a list of blocks. A block begins with a word for its kind, and a name where the
//! kind has one; its lines follow, and it ends at an empty line or with the file. Between blocks, and between rows, a
//! line that begins with `#` is a comment.
//!
//! ```text
//! # Why these cases are here.
//!
//! base accounts
//! {"tables":[..],"procedures":[@]}
//!
//! fill accounts
//! {"name":"p",..} ~ accepted
//! {"name":"q",..} ~ ["input",1,"C2","q"]
//! ```
//!
//! Most kinds have rows: each line is a case, and its columns part at ` ~ `. The lines of a `base` are a text that the
//! blocks behind it name, in later files too. Which other kinds there are, and what their lines mean, says the program.
//!
//! - `case`: `Case`, what a program is told of a case; `BlockForm`, what it has to say of the kinds of its blocks
//! - `file`: one file, block after block; `run_files` runs those of the command line
//! - `bases`, `marks`: texts that several cases share, and what stands for bytes that a line can't hold
//! - `wrong`: `Wrong`, why a case is wrong
#![tactic(auto)]

mod bases;
mod case;
mod file;
mod marks;
mod wrong;

pub use bases::{edit_once, fill_first};
pub use case::{Behind, Block, BlockForm, Case, column};
pub use file::run_files;
pub use marks::{bytes_of, text_of};
pub use wrong::{Wrong, compare, reason_of};
