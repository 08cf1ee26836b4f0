//! The top call and the sections of jobs, each with ample memory and its answer compared: what no clause says. Nothing else
//! stands here.
#![tactic(auto)]

#[cfg(test)]
mod jobs;
#[cfg(test)]
mod layouts;
