// The field GF(64) of document 01: a symbol's bit i is the coefficient of a^i, and a^6 = a + 1.
#![tactic(auto)]

mod product_table;
mod worked_out;

pub use product_table::{Products, product, product_from, products, row_from};
pub use worked_out::worked_out_product;
