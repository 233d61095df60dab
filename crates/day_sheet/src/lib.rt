//! The day sheet: its records nearest to a query, told and marked.

#![tactic(auto)]

pub mod record;
pub mod row;
pub mod shortlist;
