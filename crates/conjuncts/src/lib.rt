// Lists of conjuncts: the records of an image at which they stand. What the source asks of datafusion-expr's utils for such lists.
#![tactic(auto)]

pub mod equality;
pub mod items;
pub mod lists;
pub mod split_conjunction;
pub mod unique;
pub mod volatility;
