// The variable node of a kernel: one vector of 64 penalties from theta's and phi's of the layer before its own, on
// the side of the channel, and theta's symbol. The body is shaped for the compiler, which works on eight entries at a
// time.
#![tactic(auto)]

mod translate;
mod variable;

pub use variable::{VariableNode, variable_node};
