//! What an expression's code begins and ends with, around its parts.
#![tactic(auto)]

mod conditions;
mod ends;
mod leaves;
mod numbers;
mod values;

pub use conditions::{first_goes, is_alone, is_condition, jump_alone};
pub use ends::{
    begin_new, end_array, end_choice, end_class, end_complement, end_field, end_jump, end_new,
    end_other, end_plain, end_print, end_second_jump, end_static_call, end_super, end_test,
    end_two, end_virtual, put_between,
};
pub use leaves::{put_number, put_plain, put_read, put_show, put_static, put_truth};
pub use values::{drop_value, give_value, put_local, row_need};
