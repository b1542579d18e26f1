// A proof said in another form.
#![tactic(auto)]

mod from_tsc;
mod to_tsc;

pub use from_tsc::tsc_to_bump;
pub use to_tsc::bump_to_tsc;
