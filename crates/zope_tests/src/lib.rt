//! Tests of the commands that no file of cases can say.
#![tactic(auto)]

#[cfg(test)]
mod dumped_files;
#[cfg(test)]
mod long_files;
#[cfg(test)]
mod made_files;
#[cfg(test)]
mod running;
