//! Classes and their members: the class table of a file, and look-ups in it. Below stand the trees and the written rules; above stand types, names
//! and the rules on declarations. Its public contract is that of `classes`: the table of a file, or exactly what is violated in its declarations.
#![tactic(auto)]

mod aboves;
mod findings;
mod hierarchy;
mod inheritance;
mod meeting;
mod outlines;
mod reading;
mod rows;
mod settle;
mod sites;
mod supertypes;
mod table;
mod words;

pub use inheritance::{implementation, is_sub, member};
pub use meeting::{have_one_shape, same_type};
pub use outlines::{has_member_function, written_type};
pub use reading::{candidates, declares, fitting, member_row, own_row, result_fits, result_same};
pub use sites::{body_gives_unit, is_main_function, push_where};
pub use supertypes::{is_among, is_interface_keyword, is_modifier, kind_of_class};
pub use table::classes;
pub use words::{class_body, constructor_parameters};
