// The check of a piece of the way and the check of a touch. Both are small and ask nothing: whatever a search proposes and whatever the lists hold, yes means
// that it is so. The modules behind them count on sizes that these two have tested.
#![tactic(auto)]

mod apart;
mod arcs;
mod corners;
mod fits;
mod margins;
mod pairs;
mod piece;
mod touch;
mod turns;

pub use piece::clear_piece;
pub use touch::touches;
