// The question that the paths answer, with heights and speeds in the advisory's sense. `specs/Letters.antt` gives document 01's letter for each field.
#![tactic(auto)]

mod side_question;
mod sized_question;

pub use side_question::SideQuestion;
pub use sized_question::SizedQuestion;

#[derive(Clone, Copy)]
pub struct SensedQuestion {
    // Horizontally: the distance ahead, negative where the intruder has passed, and the speed at which it shrinks.
    pub distance: i64,
    pub closing_speed: u64,
    // The puck around the ownship.
    pub radius: u64,
    pub half_height: u64,
    // Vertically: the intruder's sensed height, and the ownship's sensed speed.
    pub level: i64,
    pub speed: i64,
    // The advice: sensed target, strength, delay, and the acceleration during the delay: away from the advice on the lower path, towards it on the upper.
    pub target: i64,
    pub strength: u64,
    pub delay: u64,
    pub delay_acceleration: u64,
    // The upper advice of a two-sided question.
    pub upper_target: i64,
    pub upper_strength: u64,
    // Until when the question looks, in seconds.
    pub limit: Option<u64>,
}

// One-sided, the side is the lower one. An enum to match on, and no trait that two sides implement: definitions and contracts speak of a side as a value
// (`Conflict side`), so each law is stated and proved once for both.
#[derive(Clone, Copy)]
pub enum Side {
    Lower,
    Upper,
}
