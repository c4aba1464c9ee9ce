//! Statements out of tokens, by recursive descent: a function for each rule of the grammar.
pub mod admin;
pub mod aggregates;
pub mod branches;
pub mod conditions;
pub mod delete;
pub mod expressions;
pub mod insert;
pub mod limits;
pub mod locks;
pub mod names;
pub mod orders;
pub mod requests;
pub mod scans;
pub mod select;
pub mod statements;
pub mod update;
pub mod writes;
