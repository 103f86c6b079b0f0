//! Templates of DTML as trees.
//!
//! DTML is Zope's Document Template Markup Language (Zope Book, "Basic DTML" and its appendix "DTML Reference").
//! `specs/Table` says which attributes a tag may have, `specs/Pieces` what a part of a source says by itself,
//! `specs/Grammar` which tree a source is, and `specs/Refusals` which refusal comes first where it is none.
//! `specs/TreeReading` has the template or the refusal as a function of the source, over `specs/PieceReading`, which has
//! what a part says; `specs/ViewLaws` has what nodes with blocks are seen as.
#![tactic(auto)]

mod block;
mod laws;
mod piece;
mod table;
mod tree;

pub use block::parse;
pub use laws::{one_tree, part_reader_agrees, template_reader_agrees};
pub use tree::{Arg, Arm, Arms, Binding, Bindings, Node, Nodes, Tree, VarTag};
