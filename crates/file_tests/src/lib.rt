//! Tests of records and scans that no file of cases says: two readers compared over many files, and what is written.
#![tactic(auto)]

#[cfg(test)]
mod agreeing;
#[cfg(test)]
mod naive;
#[cfg(test)]
mod writing;
