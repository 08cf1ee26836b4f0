//! The public calls of the crates below the top call, each with ample memory and its answer compared: what no clause says.
//! Nothing else stands here.
#![tactic(auto)]

#[cfg(test)]
mod accepted;
#[cfg(test)]
mod canonical;
#[cfg(test)]
mod checks;
#[cfg(test)]
mod databases;
#[cfg(test)]
mod evaluations;
#[cfg(test)]
mod injective;
#[cfg(test)]
mod instances;
#[cfg(test)]
mod names;
#[cfg(test)]
mod parts;
#[cfg(test)]
mod places;
#[cfg(test)]
mod queries;
#[cfg(test)]
mod rule_texts;
#[cfg(test)]
mod rules;
#[cfg(test)]
mod samples;
#[cfg(test)]
mod schemas;
#[cfg(test)]
mod streams;
#[cfg(test)]
mod terms;
#[cfg(test)]
mod texts;
#[cfg(test)]
mod typing;
