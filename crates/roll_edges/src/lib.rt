#![tactic(auto)]

#[cfg(test)]
mod again;
#[cfg(test)]
mod agreeing;
#[cfg(test)]
mod altered;
#[cfg(test)]
mod blanking;
#[cfg(test)]
mod broken;
#[cfg(test)]
mod common;
#[cfg(test)]
mod counting;
#[cfg(test)]
mod disorder;
#[cfg(test)]
mod documented;
#[cfg(test)]
mod engines;
#[cfg(test)]
mod full;
#[cfg(test)]
mod judged;
#[cfg(test)]
mod lengths;
#[cfg(test)]
mod memories;
#[cfg(test)]
mod numbers;
#[cfg(test)]
mod piles;
#[cfg(test)]
mod rules;
#[cfg(test)]
mod runs;
#[cfg(test)]
mod short;
