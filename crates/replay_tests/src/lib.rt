//! Tests of workers and of replays that no text of a schedule can say. All others are cases (`replay_cases`).
#![tactic(auto)]

#[cfg(test)]
mod items;
#[cfg(test)]
mod runs;
#[cfg(test)]
mod starving;
#[cfg(test)]
mod stores;
#[cfg(test)]
mod workers;
