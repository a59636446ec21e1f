//! Tests of the parts that an engine stands on, since whole calls show too little of them.
#![tactic(auto)]

#[cfg(test)]
mod cases;
