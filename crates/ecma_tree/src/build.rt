//! Nodes by their names: a constructor for each kind that has children. Lists become one child, and a child that is not there
//! becomes [`Kind::Absent`](crate::Kind::Absent).
mod classes;
mod expressions;
mod modules;
mod patterns;
mod statements;
mod types;
