// docs/RULES.md, 'Entries': the entries tag to steps, steps to tag, and normal form of a tag.
#![tactic(auto)]

mod normal; // normal.rt: the normal form of a tag
mod to_steps; // to_steps.rt: tag to steps
mod to_tag; // to_tag.rt: steps to tag

pub use normal::normal_form;
pub use to_steps::tag_to_steps;
pub use to_tag::steps_to_tag;
