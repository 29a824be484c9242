//! The cells of a sheet of an interface document: what each is read as, or why it is not, and the rows that they make.
#![tactic(auto)]

mod digits;
mod fault;
mod names;
mod rows;
mod shown;
mod strays;
mod times;
mod titles;
mod words;

pub use digits::{equipment_cell, label_cell, queue_cell, steps_cell};
pub use fault::CellFault;
pub use names::{name_cell, name_if_any_cell, parts_names, push_names};
pub use rows::{InputRow, Inputs, OutputRow, Outputs, Task, UnreadTitle};
pub use shown::{SHOWN_LIMIT, Shown};
pub use strays::{
    is_clear_input, is_clear_output, is_input_title, is_input_unitless, is_meant, is_output_title,
    is_output_unitless,
};
pub use times::{MOST_US, TimeUnit, time_cell};
pub use titles::{Column, INPUT_COLUMNS, OUTPUT_COLUMNS, is_title, key_of, unit_of};
pub use words::{format_cell, input_sdi_cell, output_sdi_cell, police_cell, speed_cell};

/// So many titles of columns that are not read are kept of a sheet.
pub const MOST_UNREAD: usize = 20;
