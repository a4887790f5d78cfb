// Values that stand alone: texts, keys of arrays, scalars, and what the language does with them
// (conversions, comparison, operators, coercion to a declared type).
#![tactic(auto)]

mod bytes;
mod coercion;
mod comparison;
mod conversion;
mod decimal;
mod error_kind;
mod fault;
mod form;
mod integers;
mod key;
mod op;
mod operator;
mod ordering;
mod scalar;
mod scalar_type;
mod text;

pub use coercion::coerce;
pub use comparison::{
    loose, order, order_by, order_of_bools, order_of_ints, order_of_texts, strict,
};
pub use conversion::{has_truth, int_of_form, to_bool, to_int, to_text};
pub use error_kind::ErrorKind;
pub use fault::{Fault, Stopped};
pub use form::{Form, longest_number_decides, numeric_form};
pub use key::{Key, decimal_text_is_int_key, equal_keys_are_one_key, key_of};
pub use op::Op;
pub use operator::{arith, complement, count_down, count_up};
pub use ordering::Order;
pub use scalar::Scalar;
pub use scalar_type::ScalarType;
pub use text::Text;
