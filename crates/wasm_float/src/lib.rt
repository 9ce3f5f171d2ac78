//! The floats of WebAssembly over their bits, each operator equal to its definition by IEEE 754.
#![tactic(auto)]

mod conversions;
mod f32_operators;
mod f64_operators;
mod untruncated;

pub use conversions::{
    f32_convert_i32_s, f32_convert_i32_u, f32_convert_i64_s, f32_convert_i64_u, f32_demote_f64,
    f64_convert_i32_s, f64_convert_i32_u, f64_convert_i64_s, f64_convert_i64_u, f64_promote_f32,
    i32_trunc_f32_s, i32_trunc_f32_u, i32_trunc_f64_s, i32_trunc_f64_u, i32_trunc_sat_f32_s,
    i32_trunc_sat_f32_u, i32_trunc_sat_f64_s, i32_trunc_sat_f64_u, i64_trunc_f32_s,
    i64_trunc_f32_u, i64_trunc_f64_s, i64_trunc_f64_u, i64_trunc_sat_f32_s, i64_trunc_sat_f32_u,
    i64_trunc_sat_f64_s, i64_trunc_sat_f64_u,
};
pub use f32_operators::{
    f32_abs, f32_add, f32_ceil, f32_copysign, f32_div, f32_eq, f32_floor, f32_ge, f32_gt, f32_le,
    f32_lt, f32_max, f32_min, f32_mul, f32_ne, f32_nearest, f32_neg, f32_sqrt, f32_sub, f32_trunc,
};
pub use f64_operators::{
    f64_abs, f64_add, f64_ceil, f64_copysign, f64_div, f64_eq, f64_floor, f64_ge, f64_gt, f64_le,
    f64_lt, f64_max, f64_min, f64_mul, f64_ne, f64_nearest, f64_neg, f64_sqrt, f64_sub, f64_trunc,
};
pub use untruncated::Untruncated;
