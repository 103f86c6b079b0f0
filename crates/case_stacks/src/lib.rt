//! The stacks over small sites that cases begin with, and the layers that their parts push.
//!
//! The stack is that of `user NAME HOME ROLE ..` (without it, of nobody), over the client that is reached from the root
//! through the objects of `client ID ..` (without it, the root) and the names of the request that `message` has (without
//! it, none). `push ID ..` is the layer of an object, `names NAME=TEXT ..` one of names.
#![tactic(auto)]

mod layers;
mod requests;
mod stacks;

pub use layers::{push_layer, push_layers, wrapper_of};
pub use stacks::stack_of;
