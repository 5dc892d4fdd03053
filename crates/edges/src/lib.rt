#![tactic(auto)]

mod answer;
#[cfg(test)]
mod changes;
#[cfg(test)]
mod common;
#[cfg(test)]
mod cuts;
#[cfg(test)]
mod engines;
#[cfg(test)]
mod host_calls;
#[cfg(test)]
mod keys;
#[cfg(test)]
mod limits;
#[cfg(test)]
mod order;
#[cfg(test)]
mod pocket_edges;
mod session_use;
#[cfg(test)]
mod shown;
