//! From tokens to expressions, and to what else statements and members are made of: names, types, declarations, and what
//! stands right of `:=`.
#![tactic(auto)]

mod assigned;
mod declarations;
mod dots;
mod expr;
mod made;
mod names;
mod operators;
mod reading;
mod stop;
mod types;
mod whole;

pub use assigned::right;
pub use declarations::parameters;
pub use expr::{choice, enclosed_arguments, grouped, instance, nested_choice, postfix};
pub use names::{more_names, name, one_name};
pub use reading::{Read, expect, is_symbol, same};
pub use stop::Stop;
pub use types::{declaration, value_type};
pub use whole::expression;
